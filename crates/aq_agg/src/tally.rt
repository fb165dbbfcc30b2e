//! Tallies: what is kept of a bag under each key.
ghost use Rattle.std.specs.Prelude.{◌≡◌, ◌+◌, List, [], None, IfSome, OnOk, OnErr};
ghost use Rattle.aq_agg.specs.Bags.{Exchanges, HasRoom, Holds};
ghost use Rattle.aq_agg.specs.Tallies.{AllStay, BagAt, OthersStay};

use crate::aggregate::Aggregate;
use aq_base::{Memory, Steps};
use std::alloc::Global;
use std::collections::BTreeMap;
use std::marker::Model;
use std::sync::ledger::Ledger;

/// Under each key what is kept of a bag, the empty one where the key was never changed. Contracts see
/// the entries, and say of them which bag is under a key (`BagAt`).
#[derive(Drop)]
pub struct Tally<K: Ord + Copy, A: Aggregate> {
    kept: BTreeMap<K, A>,
    alloc: Global,
}

impl<K: Ord + Copy, A: Aggregate> Model for Tally<K, A> {
    ghost use Rattle.std.specs.Prelude.{List};

    ghost Value = { List (K × A) };

    ghost view = { λ tally. tally.kept.entries };
}

impl<K: Ord + Copy, A: Aggregate> Tally<K, A> {
    /// A tally in which each key has the empty bag. It takes no memory.
    pub fn new(alloc: Global) -> Tally<K, A>
        ensures { (key : K) → BagAt K.cmp A.is_of key [] result }
    {
        Tally {
            kept: BTreeMap::new(alloc),
            alloc,
        }
    }

    /// Takes the old item out of the bag of a key, in which it is, and puts the new one in, in one
    /// step; either may be absent. A bag takes a new item while it has fewer than 4,294,967,295. The
    /// bags of all other keys stay, and after want of memory all bags do.
    pub fn change<L: Ledger>(
        &mut self,
        key: K,
        old: Option<A::Item>,
        new: Option<A::Item>,
        steps: &mut Steps<L>,
    ) -> Result<(), Memory>
        requires old { IfSome old (λ item. Holds (BagAt K.cmp A.is_of key) item self.old) }
        requires new { IfSome new A.may_hold }
        requires room { IfSome new (λ item. HasRoom (BagAt K.cmp A.is_of key) self.old) }
        ensures bag { OnOk result (Exchanges (BagAt K.cmp A.is_of key) old new self.old self.new) }
        ensures others { OnOk result (OthersStay K.cmp A.is_of key self.old self.new) }
        ensures unchanged { OnErr result (AllStay K.cmp A.is_of self.old self.new) }
        ensures steps { steps.new ≡ steps.old + 1 }
    {
        steps.tick();
        // Only what comes in may want memory, so it comes first.
        put_in(&mut self.kept, self.alloc, key, new)?;
        take_out(&mut self.kept, key, old);
        Ok(())
    }

    /// What is answered about the bag of a key. It takes no memory.
    pub fn answer(&self, key: K) -> A::Answer
        ensures { (bag : List A.Item) → BagAt K.cmp A.is_of key bag self.now → result ≡ A.answer_of bag }
    {
        match self.kept.get(&key) {
            Some(bag) => bag.answer(),
            None => A::empty(self.alloc).answer(),
        }
    }
}

/// Puts an item, if there is one, into the bag of a key.
fn put_in<K: Ord + Copy, A: Aggregate>(
    kept: &mut BTreeMap<K, A>,
    alloc: Global,
    key: K,
    item: Option<A::Item>,
) -> Result<(), Memory>
    requires item { IfSome item A.may_hold }
    requires room { IfSome item (λ item. HasRoom (BagAt K.cmp A.is_of key) kept.old.entries) }
    ensures bag { OnOk result (Exchanges (BagAt K.cmp A.is_of key) None item kept.old.entries kept.new.entries) }
    ensures others { OnOk result (OthersStay K.cmp A.is_of key kept.old.entries kept.new.entries) }
    ensures unchanged { OnErr result (AllStay K.cmp A.is_of kept.old.entries kept.new.entries) }
{
    let Some(item) = item else {
        return Ok(());
    };
    match kept.get_mut(&key) {
        Some(bag) => bag.add(item),
        None => {
            let mut bag = A::empty(alloc);
            bag.add(item)?;
            match kept.insert(key, bag) {
                Ok(_) => Ok(()),
                Err(_) => Err(Memory),
            }
        }
    }
}

/// Takes an item, if there is one, out of the bag of a key, in which it is.
fn take_out<K: Ord + Copy, A: Aggregate>(kept: &mut BTreeMap<K, A>, key: K, item: Option<A::Item>)
    requires { IfSome item (λ item. Holds (BagAt K.cmp A.is_of key) item kept.old.entries) }
    ensures bag { Exchanges (BagAt K.cmp A.is_of key) item None kept.old.entries kept.new.entries }
    ensures others { OthersStay K.cmp A.is_of key kept.old.entries kept.new.entries }
{
    if let Some(item) = item {
        if let Some(bag) = kept.get_mut(&key) {
            bag.take(item);
        }
    }
}
