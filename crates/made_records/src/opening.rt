//! What stands before the drawn lines of a made record: a configuration, and that a client enables its block.

ghost use Rattle.std.specs.Prelude.{◌≡◌, ◌++◌, OnOk};
ghost use Rattle.made_records.specs.Texts.{opening};

use std::alloc::AllocError;

/// The configuration.
pub const CONFIGURATION: &[u8] = b"config 1
server Demo Bay 1
ld BAY1
ln LLN0
set Events
member BAY1/XCBR1$ST$Pos
member BAY1/GGIO1$ST$Ind1
member BAY1/MMXU1$MX$TotW$mag$i
brcb brcbEv01 'Ev1 'BAY1/LLN0$Events 1 0111001110 0 011001 0 200
ln XCBR1
attr ST Pos$stVal dbpos d 01
attr ST Pos$q quality q 0000000000000
attr ST Pos$t time - 0000000000000000
ln GGIO1
attr ST Ind1$stVal bool d F
attr ST Ind1$q quality q 0000000000000
attr ST Ind1$t time - 0000000000000000
ln MMXU1
attr MX TotW$mag$i int32 d 0
end
";

/// A client opens an association.
pub const OPENING_LINE: &[u8] = b"open 1 direct";

/// It enables the block.
pub const ENABLING_LINE: &[u8] = b"write 1 BAY1/LLN0$BR$brcbEv01 RptEna T";

/// Adds the lines before the drawn ones.
pub fn push_opening(out: &mut Vec<u8>) -> Result<(), AllocError>
    ensures { OnOk result (out.new.items ≡ out.old.items ++ opening) }
{
    out.extend_from_slice(b"record 1\n")?;
    out.extend_from_slice(CONFIGURATION)?;
    out.extend_from_slice(OPENING_LINE)?;
    out.extend_from_slice(b"\n")?;
    out.extend_from_slice(ENABLING_LINE)?;
    out.extend_from_slice(b"\n")
}
