//! Answers about bags that were changed, with ample memory.
ghost use Rattle.std.specs.Prelude.{◌≡◌, ◌<◌};

use aq_agg::{Aggregate, MaxOf, RankedBag, StratumSum, SumCount, Tally};
use aq_base::{Memory, Steps};
use std::alloc::Global;
use std::marker::Brand;
use std::sync::ledger::{Blank, Ledger};
use std::test::Fail;

/// What is answered about the empty bag, about a bag of two items, and once the second is taken out.
fn answers<A: Aggregate>(
    alloc: Global,
    first: A::Item,
    second: A::Item,
) -> Result<[A::Answer; 3], Memory>
    requires first { A.may_hold first }
    requires second { A.may_hold second }
{
    let mut kept = A::empty(alloc);
    let of_none = kept.answer();
    kept.add(first)?;
    kept.add(second)?;
    let of_both = kept.answer();
    kept.take(second);
    Ok([of_none, of_both, kept.answer()])
}

#[test]
fn aggregates_answer(rt: HostRuntime) -> Result<(), Fail> {
    let alloc = rt.alloc();
    let sums = answers::<SumCount>(alloc, -50, 41)?;
    assert!(rt; sums == [(0, 0), (-9, 2), (-50, 1)]);
    let ranks = answers::<RankedBag>(alloc, 71, 75)?;
    assert!(rt; ranks[0] == [None; 8]);
    assert!(rt; ranks[1] == [Some(75), Some(71), None, None, None, None, None, None]);
    assert!(rt; ranks[2] == [Some(71), None, None, None, None, None, None, None]);
    let greatest = answers::<MaxOf>(alloc, -50, -30)?;
    assert!(rt; greatest == [None, Some(-30), Some(-50)]);
    let strata = answers::<StratumSum>(alloc, (3, 4), (1, 3))?;
    assert!(rt; strata == [(0, 0), (2, 65), (1, 45)]);
    Ok(())
}

/// What is answered about 2022, 2023 and 2024, once a value came into each of the last two, and that of
/// 2024 was changed.
fn answers_by_year<L: Ledger>(alloc: Global, blank: Blank) -> Result<[Option<i32>; 3], Memory>
    requires name { blank.name ≡ L.name }
    requires parts { blank.parts ≡ L.parts }
    requires some { 0 < L.parts }
{
    let mut steps = Steps::<L>::new(blank);
    let mut tally = Tally::<u32, MaxOf>::new(alloc);
    tally.change(2024, None, Some(71), &mut steps)?;
    tally.change(2024, Some(71), Some(70), &mut steps)?;
    tally.change(2023, None, Some(60), &mut steps)?;
    Ok([tally.answer(2022), tally.answer(2023), tally.answer(2024)])
}

#[test]
fn tallies_answer(rt: HostRuntime) -> Result<(), Fail> {
    let years = answers_by_year::<Brand>(rt.alloc(), Blank::new(1))?;
    assert!(rt; years == [None, Some(60), Some(70)]);
    Ok(())
}
