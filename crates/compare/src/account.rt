ghost use Rattle.std.specs.Prelude.{◌<◌, ◌+◌, ◌^◌, ℕ, OnOk};
ghost use Rattle.compare.specs.Account.{Bounded, Entered, Open};

use crate::asked::TextKey;
use std::alloc::AllocError;
use std::collections::BTreeMap;

// How often a text came in each of two lists, as far as it did not come equally often.
#[derive(Clone, Copy)]
pub(crate) struct Surplus {
    pub(crate) left: usize,
    pub(crate) right: usize,
}

// A text came once more in one of the lists.
pub(crate) fn enter<'a>(
    unsettled: &mut BTreeMap<TextKey<'a>, Surplus>,
    key: TextKey<'a>,
    more: Surplus,
) -> Result<(), AllocError>
    requires small { (i : ℕ) × (j : ℕ) × Bounded i j unsettled.old × (i + more.left < 2 ^ 64) ×
        (j + more.right < 2 ^ 64) }
    requires settled { Open unsettled.old }
    ensures entered { OnOk result (Entered unsettled.old key.entry more unsettled.new) }
    ensures settled { OnOk result (Open unsettled.new) }
    ensures small { OnOk result ((i j : ℕ) → Bounded i j unsettled.old →
        Bounded (i + more.left) (j + more.right) unsettled.new) }
{
    // Taken out first: a text that is settled by this needs no second search.
    let before = unsettled
        .remove(&key)
        .unwrap_or(Surplus { left: 0, right: 0 });
    let surplus = Surplus {
        left: before.left + more.left,
        right: before.right + more.right,
    };
    if surplus.left != surplus.right {
        unsettled.insert(key, surplus)?;
    }
    Ok(())
}
