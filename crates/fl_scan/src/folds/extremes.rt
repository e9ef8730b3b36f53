//! The least and the greatest of integers.

ghost use Rattle.std.specs.Prelude.{◌≡◌, ℤ, Option, Some, fold, map, option_map};
ghost use Rattle.std.specs.Int.{int_max, int_min};
ghost use Rattle.fl_scan.specs.ExtremeLaws.{picked};
ghost use Rattle.fl_scan.specs.ExtremeLaws.{picked_joined, picked_stays};

use crate::folds::Fold;
use fl_column::{FastLanesError, NativePType, is_less};

/// The least and the greatest integer, if there is one.
#[derive(Drop)]
pub(crate) struct Extremes<T> {
    /// Both.
    pub(crate) found: Option<(T, T)>,
}

/// The lesser of two integers.
fn lesser<T: NativePType>(x: T, y: T) -> T
    ensures { T.value result ≡ int_min (T.value x) (T.value y) }
{
    if is_less(y, x) { y } else { x }
}

/// The greater of two integers.
fn greater<T: NativePType>(x: T, y: T) -> T
    ensures { T.value result ≡ int_max (T.value x) (T.value y) }
{
    if is_less(x, y) { y } else { x }
}

/// The least and the greatest of two integers and these.
fn extremes_of<T: NativePType>(start: (T, T), items: &[T]) -> (T, T)
    ensures least { T.value result.0 ≡ fold int_min (T.value start.0) (map T.value items.now) }
    ensures greatest { T.value result.1 ≡ fold int_max (T.value start.1) (map T.value items.now) }
{
    let (mut least, mut greatest) = start;
    for item in items {
        least = lesser(least, *item);
        greatest = greater(greatest, *item);
    }
    (least, greatest)
}

impl<T: NativePType> Fold<T> for Extremes<T> {
    ghost Leads = { λ a xs b. (option_map (λ p. T.value p.0) b.found ≡ picked int_min (option_map (λ p. T.value p.0) a.found) xs) × (option_map (λ p. T.value p.1) b.found ≡ picked int_max (option_map (λ p. T.value p.1) a.found) xs) };

    ghost stays = { λ s. (picked_stays int_min (option_map (λ p. T.value p.0) s.found), picked_stays int_max (option_map (λ p. T.value p.1) s.found)) };

    ghost joined = { λ a b c xs ys h k. (picked_joined int_min (option_map (λ p. T.value p.0) a.found) (option_map (λ p. T.value p.0) b.found) (option_map (λ p. T.value p.0) c.found) xs ys h.0 k.0, picked_joined int_max (option_map (λ p. T.value p.1) a.found) (option_map (λ p. T.value p.1) b.found) (option_map (λ p. T.value p.1) c.found) xs ys h.1 k.1) };

    fn add(&mut self, item: T) -> Result<(), FastLanesError> {
        self.found = match self.found {
            Some((least, greatest)) => Some((lesser(least, item), greater(greatest, item))),
            None => Some((item, item)),
        };
        Ok(())
    }

    fn add_all(&mut self, items: &[T]) -> Result<(), FastLanesError> {
        if items.is_empty() {
            return Ok(());
        }
        let start = self.found.unwrap_or((items[0], items[0]));
        self.found = Some(extremes_of(start, items));
        Ok(())
    }

    fn add_repeated(&mut self, item: T, times: usize) -> Result<(), FastLanesError> {
        if times > 0 {
            self.add(item)?;
        }
        Ok(())
    }

    fn stand_in(items: &[T], word: u64) -> Option<T> {
        if word == 0 {
            return None;
        }
        Some(items[word.trailing_zeros() as usize])
    }
}
