//! What stands on a shelf, read on a counter of its own: nobody asks how many steps a staged load makes.
ghost use Rattle.std.specs.Prelude.{◌≡◌, ◌<◌, IfSome};
ghost use Rattle.aq_base.specs.Values.{HasValueInRange};
ghost use Rattle.aq_shelf.specs.Standing.{content_at, IsShelf};

use aq_base::{ObsKey, Observation, Steps};
use aq_shelf::{Rows, Shelf};
use std::marker::Brand;
use std::sync::ledger::{Blank, Ledger};

/// The observation of a shelf at a key, if one stands there.
pub(crate) fn content_at(shelf: &Shelf, key: &ObsKey) -> Option<Observation>
    ensures content { result ≡ content_at key.now shelf.now }
    ensures range { IfSome result (HasValueInRange key.now.monitor.pollutant) }
    ensures shelf { IsShelf shelf.now }
{
    counted_at::<Brand>(shelf, key, Blank::new(1))
}

/// The same on a counter of its own, which nobody reads.
fn counted_at<L: Ledger>(shelf: &Shelf, key: &ObsKey, blank: Blank) -> Option<Observation>
    requires name { blank.name ≡ L.name }
    requires parts { blank.parts ≡ L.parts }
    requires some { 0 < L.parts }
    ensures content { result ≡ content_at key.now shelf.now }
    ensures range { IfSome result (HasValueInRange key.now.monitor.pollutant) }
    ensures shelf { IsShelf shelf.now }
{
    let mut steps = Steps::<L>::new(blank);
    shelf.at(*key, &mut steps)
}

/// All observations of a shelf, in rising order of keys.
pub(crate) fn rows_of(shelf: &Shelf) -> Rows<'_>
    ensures rows { result ≡ shelf.now }
    ensures shelf { IsShelf shelf.now }
{
    counted_rows::<Brand>(shelf, Blank::new(1))
}

/// The same on a counter of its own, which nobody reads.
fn counted_rows<L: Ledger>(shelf: &Shelf, blank: Blank) -> Rows<'_>
    requires name { blank.name ≡ L.name }
    requires parts { blank.parts ≡ L.parts }
    requires some { 0 < L.parts }
    ensures rows { result ≡ shelf.now }
    ensures shelf { IsShelf shelf.now }
{
    let mut steps = Steps::<L>::new(blank);
    shelf.rows(&mut steps)
}
