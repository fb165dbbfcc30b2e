//! The keys of two lists of observations, in one order.
ghost use Rattle.std.specs.Iterator.{YieldsFirst, item_count};
ghost use Rattle.std.specs.Prelude.{◌≡◌, [], true, drop, slice_get, IfNone};
ghost use Rattle.aq_staging.specs.Keys.{either_keys, keys_in};
ghost use Rattle.aq_rules.specs.Office.Office.{observation_numbers, observation_rank, rises};

use aq_base::ObsKey;
use aq_shelf::Rows;
use std::cmp::Ordering;
use std::iter::Iterator;
use std::marker::Model;

/// The keys of some observations, of which the first is read ahead. Contracts see those that are left.
#[derive(Drop)]
struct KeysAhead<'a> {
    next: Option<ObsKey>,
    behind: Rows<'a>,
}

impl<'a> Model for KeysAhead<'a> {
    ghost use Rattle.std.specs.Prelude.{◌≡◌, List, [], IfNone};
    ghost use Rattle.aq_base.specs.declared.observation.ObsKey.{ObsKey};
    ghost use Rattle.aq_staging.specs.Keys.{keys_left};

    ghost Value = { List ObsKey };

    ghost view = { λ keys. keys_left keys.next keys.behind };

    ghost invariant = { λ keys. IfNone keys.next (keys.behind ≡ []) };
}

impl<'a> KeysAhead<'a> {
    ghost use Rattle.std.specs.Prelude.{◌≡◌, drop, slice_get};
    ghost use Rattle.aq_staging.specs.Keys.{keys_in};

    fn new(rows: Rows<'a>) -> KeysAhead<'a>
        ensures { result ≡ keys_in rows.entry }
    {
        let mut behind = rows;
        KeysAhead {
            next: next_key(&mut behind),
            behind,
        }
    }

    /// The first key that is left.
    fn first(&self) -> Option<ObsKey>
        ensures { result ≡ slice_get self.now 0 }
    {
        self.next
    }

    /// Passes the first key.
    fn skip(&mut self)
        ensures { self.new ≡ drop 1 self.old }
    {
        self.next = next_key(&mut self.behind);
    }
}

/// The key of the next of some observations.
fn next_key(rows: &mut Rows<'_>) -> Option<ObsKey>
    ensures first { YieldsFirst keys_in rows.old result rows.new }
    ensures end { IfNone result (rows.new ≡ []) }
{
    let (key, _) = rows.next()?;
    Some(key)
}

/// The keys of two lists of observations, in rising order and each once. Contracts see those that are left.
#[derive(Drop)]
pub(crate) struct EitherKeys<'a> {
    first: KeysAhead<'a>,
    second: KeysAhead<'a>,
}

impl<'a> Model for EitherKeys<'a> {
    ghost use Rattle.std.specs.Prelude.{◌≡◌, true, List};
    ghost use Rattle.aq_base.specs.declared.observation.ObsKey.{ObsKey};
    ghost use Rattle.aq_staging.specs.Keys.{either_keys};
    ghost use Rattle.aq_rules.specs.Office.Office.{observation_numbers, rises};

    ghost Value = { List ObsKey };

    ghost view = { λ keys. either_keys keys.first keys.second };

    ghost invariant = { λ keys. rises observation_numbers keys.second ≡ true };
}

impl<'a> EitherKeys<'a> {
    ghost use Rattle.std.specs.Prelude.{◌≡◌, true};
    ghost use Rattle.aq_staging.specs.Keys.{either_keys, keys_in};
    ghost use Rattle.aq_rules.specs.Office.Office.{observation_rank, rises};

    /// The keys of two lists of observations, of which the second is in order.
    pub(crate) fn new(first: Rows<'a>, second: Rows<'a>) -> EitherKeys<'a>
        requires { rises observation_rank second ≡ true }
        ensures { result ≡ either_keys (keys_in first.entry) (keys_in second.entry) }
    {
        EitherKeys {
            first: KeysAhead::new(first),
            second: KeysAhead::new(second),
        }
    }
}

impl<'a> Iterator for EitherKeys<'a> {
    type Item = ObsKey;

    ghost next_gives = { YieldsFirst (λ rest. rest) };

    ghost remaining = { item_count (λ rest. rest) };

    fn next(&mut self) -> Option<ObsKey> {
        take_first(&mut self.first, &mut self.second)
    }
}

/// Takes the first of the keys that are left of either list.
fn take_first(first: &mut KeysAhead<'_>, second: &mut KeysAhead<'_>) -> Option<ObsKey>
    requires { rises observation_numbers second.old ≡ true }
    ensures first { YieldsFirst (λ keys. keys) (either_keys first.old second.old) result (either_keys first.new second.new) }
    ensures order { rises observation_numbers second.new ≡ true }
{
    let Some(one) = first.first() else {
        let key = second.first()?;
        second.skip();
        return Some(key);
    };
    let Some(other) = second.first() else {
        first.skip();
        return Some(one);
    };
    match one.cmp(&other) {
        Ordering::Less => {
            first.skip();
            Some(one)
        }
        Ordering::Equal => {
            first.skip();
            second.skip();
            Some(other)
        }
        Ordering::Greater => {
            second.skip();
            Some(other)
        }
    }
}
