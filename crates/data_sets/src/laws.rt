//! What the book stands for is what the model of the bay has. The functions run nothing: their contracts are laws.

ghost use Rattle.std.specs.Prelude.{◌≡◌, ◌<◌, ◌≤◌, ◌++◌, nat_lt, ◌∷◌, [], ℕ, List, length, map};
ghost use Rattle.std.specs.Prelude.{None, Some, Ok, slice_index_or, slice_set};
ghost use Rattle.bay_model.specs.declared.request.SetName.{SetName};
ghost use Rattle.bay_model.specs.declared.request.Target.{Target};
ghost use Rattle.bay_model.specs.declared.answer.Output.{Output};
ghost use Rattle.sv_base.specs.declared.components.Comp.TheVariants as comps;
ghost use Rattle.bay_model.specs.declared.tables.NodeRow.{NodeRow};
ghost use Rattle.bay_model.specs.declared.tables.SetRow.{SetRow};
ghost use Rattle.bay_model.specs.Definitions.{number_of, definition_error, is_set_name};
ghost use Rattle.bay_model.specs.Deletions.{gone, in_use_from, matched};
ghost use Rattle.bay_model.specs.Model.{Model, DataSet};
ghost use Rattle.bay_model.specs.Names.{sets_of};
ghost use Rattle.bay_model.specs.Parameters.{parameters_at};
ghost use Rattle.bay_model.specs.Points.{Deed, Past, answered, defined, deleted, wrote};
ghost use Rattle.bay_model.specs.Sets.{without, sets, set_named, set_referred};
ghost use Rattle.std.specs.Option.{option_map};
ghost use Rattle.sv_base.specs.declared.value.Value.TheVariants as kinds;
ghost use Rattle.data_sets.specs.Books.{Book, number_named, number_referred, deletion, defined_set};
ghost use Rattle.data_sets.specs.Books.{set_at, items_in, opened, reference};
ghost use Rattle.data_sets.specs.Books.{after_define, after_delete, after_hold, after_release};
ghost use Rattle.data_sets.specs.Books.{define_fault};
ghost use Rattle.data_sets.specs.Turns.{after_deletes, going, there, error_of, AreRows};
ghost use Rattle.data_sets.specs.Opening.{AreSets, AreNamed, IsBounded, after_names};
ghost use Rattle.data_sets.specs.Standing.{Stands, StandsFor, IsPlain, IsQuiet, data_set, dat_sets};
ghost use Rattle.data_sets.specs.Standing.{at};

/// A book that stands for data sets and the DatSets of blocks stands for those after a set was defined or deleted, and after
/// a block's DatSet became empty, or an empty one named a set.
pub fn sets_are_the_definition()
    ensures define { (b : Book) (n : ℕ) (all : List DataSet) (used : List (List ℕ)) (name : SetName)
        (ts : List Target) → StandsFor b n all used
        → number_named name b ≡ None → IsPlain name.domain
        → StandsFor (after_define name ts b) n (all ++ data_set (defined_set name ts) ∷ []) used }
    ensures delete { (b : Book) (n k : ℕ) (all : List DataSet) (used : List (List ℕ))
        (name : SetName) → StandsFor b n all used → deletion b name ≡ Ok k
        → StandsFor (after_delete k b) n (without name all) used }
    ensures release { (b : Book) (n j k : ℕ) (all : List DataSet) (used : List (List ℕ))
        → StandsFor b n all used → j < length used
        → number_referred (slice_index_or used j []) b ≡ Some k
        → StandsFor (after_release k b) n all (slice_set used j []) }
    ensures hold { (b : Book) (n j k : ℕ) (all : List DataSet) (used : List (List ℕ)) (r : List ℕ)
        → StandsFor b n all used → j < length used
        → slice_index_or used j [] ≡ [] → number_referred r b ≡ Some k
        → StandsFor (after_hold k b) n all (slice_set used j r) }
{}

/// A book that stands for a history before a point stands for it after a set was defined, or a block's DatSet was written.
pub fn books_stand()
    ensures define { (b : Book) (c : Model) (a n m : ℕ) (o : Output) (name : SetName)
        (ts : List Target) (before : Past) → Stands b c before
        → number_named name b ≡ None → IsPlain name.domain
        → Stands (after_define name ts b) c
        (at n m (answered a o (defined name (map number_of ts))) ∷ before) }
    ensures named { (b : Book) (c : Model) (a k j n m : ℕ) (t : List ℕ) (before : Past)
        → Stands b c before → j < length c.blocks
        → (parameters_at c j before).dat_set ≡ [] → number_referred t b ≡ Some k
        → Stands (after_hold k b) c (at n m (wrote a j comps.DatSet (kinds.Text t)) ∷ before) }
    ensures emptied { (b : Book) (c : Model) (a k j n m : ℕ) (before : Past) → Stands b c before
        → j < length c.blocks
        → number_referred (parameters_at c j before).dat_set b ≡ Some k
        → Stands (after_release k b) c (at n m (wrote a j comps.DatSet (kinds.Text [])) ∷ before) }
    ensures quiet { (b : Book) (c : Model) (n m : ℕ) (d : Deed) (before : Past) → Stands b c before
        → IsQuiet d → Stands b c (at n m d ∷ before) }
{}

/// What is found in it is what the model of the bay has: sets by name and by reference, and the items of a domain's sets.
pub fn sets_are_found()
    ensures named { (b : Book) (c : Model) (name : SetName) (past : Past) → Stands b c past
        → option_map (λ k. data_set (set_at b k)) (number_named name b)
        ≡ set_named name (sets c past) }
    ensures referred { (b : Book) (c : Model) (r : List ℕ) (past : Past) → Stands b c past
        → option_map (λ k. data_set (set_at b k)) (number_referred r b)
        ≡ set_referred r (sets c past) }
    ensures items { (b : Book) (c : Model) (domain : List ℕ) (past : Past) → Stands b c past
        → items_in domain b.sets ≡ sets_of c past domain }
{}

/// What comes of a definition and of deletions is what the model of the bay has: the error of a refused definition; which
/// sets go, and how many were there at their turn; and the book then stands for the history with the reply.
pub fn changes_are_answered()
    ensures errors { (b : Book) (c : Model) (past : Past) (rows : List NodeRow) (name : SetName)
        (ts : List Target) → Stands b c past → AreRows c rows
        → definition_error c past name ts ≡ option_map error_of
        (define_fault b name (is_set_name c name) rows ts) }
    ensures gone { (b : Book) (c : Model) (ns : List SetName) (past : Past) → Stands b c past
        → gone c past ns (sets c past) ≡ going ns b }
    ensures matched { (b : Book) (c : Model) (ns : List SetName) (past : Past) → Stands b c past
        → matched c past ns (sets c past) ≡ there ns b }
    ensures deletes { (b : Book) (c : Model) (a n m : ℕ) (o : Output) (ns : List SetName)
        (before : Past) → Stands b c before
        → Stands (after_deletes ns b) c
        (at n m (answered a o (deleted (gone c before ns (sets c before)))) ∷ before) }
{}

/// The opened book, in which each configured DatSet then names its set, stands for the history without a step. It is asked
/// that the references of the configured sets differ, that no domain has a `/`, and that each DatSet is empty or names one.
pub fn opened_books_stand()
    ensures { (c : Model) (rows : List SetRow) → AreSets rows c.sets → AreNamed c
        → Stands (after_names (dat_sets c []) (opened rows)) c [] }
{}

/// A set is in use exactly where the DatSet of a block names it; no more blocks hold it than there are.
pub fn holds_are_uses()
    ensures used { (b : Book) (c : Model) (k : ℕ) (past : Past) → Stands b c past
        → k < length b.sets
        → nat_lt 0 (set_at b k).holds ≡ in_use_from c past (reference (set_at b k)) 0 c.blocks }
    ensures few { (b : Book) (n k : ℕ) (all : List DataSet) (used : List (List ℕ))
        → StandsFor b n all used → k < length b.sets
        → (set_at b k).holds ≤ length used }
{}

/// What clients may make a server hold: at most 64 sets, each of at most 256 nodes and with a name of at most 64 octets.
pub fn books_are_bounded()
    ensures opened { (c : Model) (rows : List SetRow) → IsBounded c (opened rows) }
    ensures define { (c : Model) (b : Book) (rows : List NodeRow) (name : SetName)
        (ts : List Target) → IsBounded c b
        → define_fault b name (is_set_name c name) rows ts ≡ None
        → IsBounded c (after_define name ts b) }
    ensures delete { (c : Model) (b : Book) (k : ℕ) → IsBounded c b → b.configured ≤ k
        → k < length b.sets → IsBounded c (after_delete k b) }
    ensures hold { (c : Model) (b : Book) (k : ℕ) → IsBounded c b → k < length b.sets
        → IsBounded c (after_hold k b) }
    ensures release { (c : Model) (b : Book) (k : ℕ) → IsBounded c b → k < length b.sets
        → IsBounded c (after_release k b) }
{}
