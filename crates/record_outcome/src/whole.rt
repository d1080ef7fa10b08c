//! What is answered to a whole record.

ghost use Rattle.std.specs.Prelude.{◌≡◌, List, ℕ};
ghost use Rattle.sv_base.specs.declared.config.Config.{Config};
ghost use Rattle.record_outcome.specs.Records.{outcome};
ghost use Rattle.record_outcome.specs.declared.status.Status.TheVariants.{Ok};
ghost use Rattle.record_outcome.specs.Grammar.{IsRecord};

/// A record of the grammar within the limits is read to its end: its status is Ok. By `texts_are_of_histories` of `record_outcome` it
/// is answered the text of its history, and `end`.
pub fn whole_records_are_read_to_their_end()
    ensures { (octets : List ℕ) (config : Config) → IsRecord octets config
        → (outcome octets).status ≡ Ok }
{}
