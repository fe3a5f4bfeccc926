// The status of an instruction, whether it is on party hold, and the answer to a question (document 02, request b).
#![tactic(auto, unfolding(meaning::specs::Status::wished, meaning::specs::Status::status, meaning::specs::Status::answer_to))]

ghost use Rattle.std.specs.Prelude.{◌≡◌};
ghost use Rattle.meaning.specs.Status.{wished, status, answer_to};

use meaning::{Answer, Verdict, Wishes};

// The indicator is Y, or it is empty and the account's default is Y.
fn is_wished(w: Wishes) -> bool
    ensures { result ≡ wished w }
{
    w.indicator.unwrap_or(w.default.unwrap_or(false))
}

// N for a rejection; otherwise Y exactly if a party hold rule applies or the hold is wished for.
pub fn status(v: Verdict, w: Wishes) -> bool
    ensures { result ≡ status v w }
{
    v.rejection.is_none() && (v.party.is_some() || is_wished(w))
}

// The answer to a question that was judged so: with the status where the line carries the two fields.
pub fn answer_to(v: Verdict, w: Wishes) -> Answer
    ensures { result ≡ answer_to v w }
{
    if w.default.is_none() {
        return Answer::Judged(v);
    }
    Answer::WithStatus(v, status(v, w))
}
