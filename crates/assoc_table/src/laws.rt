//! The table stands for each history. The functions run nothing: each contract is a law.

ghost use Rattle.std.specs.Prelude.{[], ◌∷◌, ℕ, List, replicate};
ghost use Rattle.bay_model.specs.Model.{Model};
ghost use Rattle.bay_model.specs.Points.{Deed, Point, Past};
ghost use Rattle.bay_model.specs.Singles.{arrival};
ghost use Rattle.assoc_table.specs.Seats.{Row, closed};
ghost use Rattle.assoc_table.specs.Standing.{Stands};
ghost use Rattle.assoc_table.specs.Coming.{Coming, came, IsComing};
ghost use denote.Param.Send.{IsSend};
ghost use Rattle.assoc_table.specs.contracts.table.Assocs.{the_row as associations_row};

/// Where no association is open the table stands for the empty history. Where it stands for a past, it stands for the arrival of
/// the next point as it is; from there, after an association is opened or ended, its oldest output is taken, or what the deed puts
/// for one association, and for no other, is put after what waits, for the point itself; and as it is for a further arrival.
pub fn associations_stand()
    ensures empty { (c : Model) → Stands (replicate 16 closed) c [] }
    ensures arrival { (c : Model) (m n : ℕ) (before : Past) (rows : List Row) → Stands rows c before
        → Stands rows c (arrival n m ∷ before) }
    ensures deed { (c : Model) (m n : ℕ) (d : Deed) (before : Past) (rows : List Row) (k : Coming)
        → Stands rows c (arrival n m ∷ before) → IsComing k c n d before
        → Stands (came d k rows) c (record { moment = m; step = n; deed = d } ∷ before) }
    ensures again { (c : Model) (m n : ℕ) (q : Point) (before : Past) (rows : List Row)
        → Stands rows c (q ∷ before)
        → Stands rows c (arrival n m ∷ q ∷ before) }
{}

/// A table of associations may go to another thread.
pub fn associations_cross_threads()
    ensures { IsSend associations_row }
{}
