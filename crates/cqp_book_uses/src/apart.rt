ghost use Rattle.std.specs.Prelude.{◌≡◌, ◌≢◌, false, Some};
ghost use Rattle.cqp_book.specs.Keys.{find};

use cqp_book::{Deal, Hold, Machine};

/// Takes two holds of a book in. Their openings are the book's, and their keys differ, since a key
/// has one hold at most.
pub fn take_both<M: Machine>(deal: &mut Deal<M>, one: Hold<M>, two: Hold<M>)
    requires open { deal.old.refused ≡ false }
    requires one { one.identity ≡ deal.old.identity }
    requires two { two.identity ≡ deal.old.identity }
    ensures apart { one.key ≢ two.key }
    ensures opening { (one.opening ≡ deal.old.opening) × (two.opening ≡ deal.old.opening) }
    ensures one { find deal.new.pairs one.key ≡ Some one.cell }
    ensures two { find deal.new.pairs two.key ≡ Some two.cell }
    ensures same { deal.new ≡ record deal.old { pairs = deal.new.pairs } }
{
    deal.add(one);
    deal.add(two);
}
