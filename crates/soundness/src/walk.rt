// The walk along a chain.
ghost use Rattle.chains.specs.Chains.{Walkable, Walked};

use chains::Seen;

// Whether one of the places in the chain of the bucket k is as asked. A `while`, since it follows links: an
// iterator over a chain would be a struct and an impl that this one loop uses, no plainer. Widening is by `as`: with
// `usize::from` the loop was not proved.
pub(crate) fn any<F: Fn(u16) -> bool>(seen: &Seen, k: usize, asked: F) -> bool
    requires { Walkable seen.now k (F.pre asked) }
    ensures { Walked seen.now k (F.post asked) result }
{
    let mut j = seen.head[k];
    while j != 0 {
        if asked(j - 1) {
            return true;
        }
        j = seen.next[(j - 1) as usize];
    }
    false
}
