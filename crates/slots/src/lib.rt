// The live slots of the merge step, kept packed in slot order.
#![tactic(auto)]

ghost use Rattle.std.specs.Prelude.{◌≡◌, length, take};
ghost use Rattle.lent.specs.Grid.{over};
ghost use Rattle.slots.specs.Slots.{without};

// Slot y leaves the first m places, or all where there are fewer, and those after it move up; behind them the list is as it was.
pub fn close_gap(slots: &mut [usize], m: usize, y: usize)
    ensures { slots.new ≡ over (without y (take m slots.old)) slots.old }
{
    let end = m.min(slots.len());
    let mut w = 0usize;
    for j in 0..end {
        let s = slots[j];
        if s != y {
            slots[w] = s;
            w += 1;
        }
    }
}
