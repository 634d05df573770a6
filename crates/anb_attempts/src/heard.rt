//! Whether the same arrivals are tried already.
ghost use Rattle.std.specs.Prelude.{◌≡◌, [], map};
ghost use Rattle.std.specs.List.{list_any};
ghost use Rattle.anb_term.specs.Tree.{tree_eqb, trees_eqb, trees_of};
ghost use Rattle.anb_term.specs.View.{tree_of};
ghost use Rattle.anb_attempts.specs.Attempts.{hears, is_heard};

use crate::attempts::Scene;
use crate::differing::is_same;
use anb_term::Term;

/// Whether one of these scenes has these arrivals.
pub(crate) fn is_heard(scenes: &[Scene], arrivals: &[Term]) -> bool
    ensures { result ≡ is_heard (map tree_of arrivals.now) scenes.now }
{
    scenes.iter().any(|scene| hears(scene, arrivals))
}

fn hears(scene: &Scene, arrivals: &[Term]) -> bool
    ensures { result ≡ hears (map tree_of arrivals.now) scene.now }
{
    are_same(&scene.arrivals, arrivals)
}

/// Whether these are the same terms in the same order.
fn are_same(ones: &[Term], others: &[Term]) -> bool
    ensures { result
        ≡ trees_eqb (trees_of (map tree_of ones.now)) (trees_of (map tree_of others.now)) }
{
    let Some((one, ones)) = ones.split_first() else {
        return is_none(others);
    };
    let Some((other, others)) = others.split_first() else {
        return false;
    };
    is_same(one, other) && are_same(ones, others)
}

/// Whether there are no terms.
fn is_none(terms: &[Term]) -> bool
    ensures { result ≡ trees_eqb (trees_of []) (trees_of (map tree_of terms.now)) }
{
    let Some(_first) = terms.split_first() else {
        return true;
    };
    false
}
