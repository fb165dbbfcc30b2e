//! How many of sorted items lie before a place, by halves.
ghost use Rattle.std.specs.Prelude.{◌≡◌, ◌≤◌, length, count_by};
ghost use Rattle.std.specs.List.Sorted.{IsSorted};
ghost use Rattle.std.specs.Ordering.{is_le, is_lt};

use std::cmp::Ord;

/// How many of sorted items are less than a bound.
pub(crate) fn count_below<T: Ord>(items: &[T], bound: &T) -> usize
    requires { IsSorted T.cmp items.now }
    ensures { result ≡ count_by (λ item. is_lt (T.cmp item bound.now)) items.now }
{
    items.partition_point(|item| item.cmp(bound).is_lt())
}

/// How many of sorted items are no greater than a bound.
pub(crate) fn count_up_to<T: Ord>(items: &[T], bound: &T) -> usize
    requires { IsSorted T.cmp items.now }
    ensures { result ≡ count_by (λ item. is_le (T.cmp item bound.now)) items.now }
{
    items.partition_point(|item| item.cmp(bound).is_le())
}
