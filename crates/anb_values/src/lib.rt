//! Values files: the values that a role starts with, and the seed of its draws, each on a line with
//! its label.
//!
//! A line is a label, `=` and a value, which is a literal, or `x` and hexadecimal digits. Lines that
//! are empty or begin with `#` are passed over. The label `@seed` has the seed: `x` and 64 digits.
#![tactic(auto)]

ghost use Rattle.std.specs.Prelude.{◌≡◌, ◌≢◌, ◌⊎◌, ◌≤◌, ℕ, List, length, sum_by, All, AllPairs, IfOk, IfErr, MatchResult, Ok, Err};
ghost use Rattle.anb_base.specs.declared.TheConstants.{ARRIVAL, SMALL_FILE};
ghost use Rattle.anb_values.specs.declared.refusal.ValuesNo.TheVariants as refusal;
ghost use Rattle.anb_values.specs.Fit.{EachFits, Fit, FitIsUnique, Outcome, UnlessNoMemory};

mod entries;
mod fitted;
mod lines;
mod refusal;

use anb_base::Text;
pub use fitted::{Fitted, ValueList};
pub use lines::is_label;
pub use refusal::ValuesNo;
use std::alloc::Global;

/// Law: a text gives one outcome for some names, which are values and perhaps a seed, or the first
/// fault.
pub fn one_fit()
    ensures { FitIsUnique }
{}

/// Law: each text gives an outcome for some names.
pub fn each_fits()
    ensures { EachFits }
{}

/// Reads the values of these names, and the seed.
pub fn values(alloc: Global, text: &[u8], names: &[Text]) -> Result<Fitted, ValuesNo>
    requires size { length text.now ≤ SMALL_FILE }
    requires differ { AllPairs (λ (one other : List ℕ). one ≢ other) names.now }
    ensures fits { IfOk result (λ fitted. Fit text.now names.now (Ok fitted)) }
    ensures refused { IfErr result (λ no. UnlessNoMemory no (Fit text.now names.now (Err no))) }
    ensures exact { (due : Outcome) → Fit text.now names.now due
        → MatchResult result (λ fitted. Ok fitted ≡ due) (λ no. (Err no ≡ due)
        ⊎ (no ≡ refusal.NoMemory)) }
    ensures short { IfOk result (λ fitted. All (λ value. length value ≤ ARRIVAL) fitted.values) }
    ensures total { IfOk result (λ fitted. sum_by length fitted.values ≤ length text.now) }
{
    let entries = lines::entries(alloc, text)?;
    let labels = entries::check(alloc, &entries, names)?;
    let values = entries::values_of(alloc, &entries, &labels, names)?;
    let seed = entries::seed_of(&entries, &labels);
    Ok(Fitted {
        values: ValueList::new(values),
        seed,
    })
}
