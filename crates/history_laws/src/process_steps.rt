//! A history that is written with actor 0 for each step of the process.

ghost use Rattle.std.specs.Prelude.{◌≡◌};
ghost use Rattle.bay_model.specs.Model.{Model};
ghost use Rattle.bay_model.specs.Answers.{Turn, History, points, answer};
ghost use Rattle.bay_model.specs.Acceptance.{fault, IsHistory};
ghost use Rattle.history_laws.specs.Written.{as_written, history_written};

/// A history whose steps of the process are all written as actor 0's has the same points, each step is answered and refused alike,
/// and is accepted where it was.
pub fn who_made_a_step_of_the_process_is_of_no_account()
    ensures points { (c : Model) (h : History) → points c (history_written h) ≡ points c h }
    ensures answer { (c : Model) (h : History) (t : Turn)
        → answer c (history_written h) (as_written t) ≡ answer c h t }
    ensures fault { (c : Model) (h : History) (t : Turn)
        → fault c (history_written h) (as_written t) ≡ fault c h t }
    ensures legal { (c : Model) (h : History) → IsHistory c h → IsHistory c (history_written h) }
{}
