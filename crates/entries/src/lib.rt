// Cells written one after another, a cache with one more entry on copies, and the trace of loads: what every call that loads goes by.
#![tactic(auto)]

mod trace; // trace.rt: a load remembered

ghost use Rattle.std.specs.Prelude.{◌≡◌, ℕ, List};
ghost use Rattle.definition.specs.Reasons.{tries, unlisted};
ghost use Rattle.entries.specs.Entering.{Entered, Tried};
ghost use Rattle.entries.specs.Writing.{written};

use definition::numbers::COUNT_CACHE;
use definition::{Reply, Trial};
use resolution::Base;
pub use trace::remember;

// Cells written one after another from a place on; past the end nothing is written.
#[tactic(auto, unfolding(crate::specs::Writing::written))]
pub fn write_cells<T: Copy>(t: &mut [T], from: u16, cells: &[T])
    ensures { t.new ≡ written cells.now from t.old }
{
    let start = usize::from(from).min(t.len());
    cells::copy(cells, &mut t[start..]);
}

// The counts and the cache written over the fronts of two tables, of any lengths, with one more entry: its row stands at the old count of entries,
// and the count grows by 1, from 65535 to 0. A cell past the end of its table is not written.
fn enter(
    counts: &[u16],
    cache: &[u16],
    loader: u16,
    name: u16,
    class: u16,
    counted: &mut [u16],
    trial: &mut [u16],
)
    ensures { Entered counts.now cache.now loader name class counted.old trial.old counted.new trial.new }
{
    write_cells(counted, 0, counts);
    write_cells(trial, 0, cache);
    let entries = cells::at(counts, COUNT_CACHE);
    cells::put(counted, COUNT_CACHE, entries.wrapping_add(1));
    cells::put_three(trial, u32::from(entries), loader, name, class);
}

// A store with one more entry, on copies: its counts and its cache, and the direct superclasses by them.
pub fn try_entry(
    base: &Base,
    loader: u16,
    name: u16,
    class: u16,
    counted: &mut [u16],
    trial: &mut [u16],
    supers: &mut [u8],
)
    ensures { Tried base.now.counts.now base.now.classes.now base.now.kept.now base.now.cache.now loader name class counted.old trial.old supers.old counted.new trial.new supers.new }
{
    enter(base.counts, base.cache, loader, name, class, counted, trial);
    let entered = Base {
        counts: counted,
        classes: base.classes,
        kept: base.kept,
        cache: trial,
    };
    entered.fill_supers(supers);
}

// A tried load that lists nothing.
pub fn unlisted(reply: Reply) -> Trial
    ensures { (out : List ℕ) → tries result.reply result.count out ≡ unlisted reply out }
{
    Trial { reply, count: 0 }
}
