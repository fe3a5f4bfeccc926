// The rules of a type, looked through in rising sequence (document 01, 'How a question is judged'). A loop over
// the lent slice, which document 01 names.
#![tactic(auto)]

ghost use Rattle.std.specs.Prelude.{◌≡◌};
ghost use Rattle.rules.specs.Search.{may_decide, first_positive};

use places::Rule;

// A rule of a type that matches the question. The sign is a number as in a `Rule`: `first_positive` takes any, and an
// enum would ask more of its callers.
#[derive(Clone, Copy)]
pub struct ListedRule {
    pub sequence: u8,
    pub sign: u8,
}

// A positive rule decides, unless one before it does.
fn may_decide(r: ListedRule) -> bool
    ensures { result ≡ may_decide r }
{
    r.sign == Rule::POSITIVE
}

// The sequence of the first positive rule, in the order of the slice, if there is one. Where no rule matches, none is
// listed.
pub fn first_positive(rules: &[Option<ListedRule>]) -> Option<u8>
    ensures { result ≡ first_positive rules.now }
{
    for place in rules {
        if let Some(r) = *place {
            if may_decide(r) {
                return Some(r.sequence);
            }
        }
    }
    None
}
