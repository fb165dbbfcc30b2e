//! What every aggregate promises.
ghost use Rattle.std.specs.Prelude.{◌≡◌, List, [], ◌∷◌, IsPermutation, OnOk, OnErr};
ghost use Rattle.aq_agg.specs.Bags.{HasRoom, Holds, Stays};

use aq_base::Memory;
use std::alloc::Global;

/// What is kept of a bag of items, for one answer about the bag. An item that is in the bag twice
/// counts twice.
pub trait Aggregate: Sized + Drop {
    /// What is put into the bag and taken out.
    type Item: Copy;

    /// What is answered about the bag.
    type Answer: Copy;

    /// Whether an item may be in a bag.
    ghost may_hold: { Self.Item → Type 0 };

    /// Whether this is what is kept of a bag.
    ghost is_of: { List Self.Item → Self → Type 0 };

    /// What is answered about a bag.
    ghost answer_of: { List Self.Item → Self.Answer };

    /// What is kept of the empty bag. It takes no memory.
    fn empty(alloc: Global) -> Self
        ensures { is_of [] result };

    /// Puts an item into the bag, which has fewer than 4,294,967,295 items. After want of memory the
    /// bag is as it was.
    fn add(&mut self, item: Self::Item) -> Result<(), Memory>
        requires item { may_hold item }
        requires room { HasRoom is_of self.old }
        ensures ok { OnOk result ((bag : List Self.Item) → is_of bag self.old → is_of (item ∷ bag) self.new) }
        ensures err { OnErr result (Stays is_of self.old self.new) };

    /// Takes an item that is in the bag out of it, once. It takes no memory.
    fn take(&mut self, item: Self::Item)
        requires { Holds is_of item self.old }
        ensures { (rest : List Self.Item) → is_of (item ∷ rest) self.old → is_of rest self.new };

    /// What is answered about the bag. It takes no memory.
    fn answer(&self) -> Self::Answer
        ensures { (bag : List Self.Item) → is_of bag self.now → result ≡ answer_of bag };

    /// The order of a bag says nothing.
    ghost any_order: { (a b : List Self.Item) (kept : Self) → IsPermutation a b → is_of a kept → is_of b kept };
}
