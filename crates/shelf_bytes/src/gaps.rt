// "Removing closes the gap, so freed room serves the next put."
ghost use Rattle.std.specs.Prelude.{◌≡◌};
ghost use Rattle.shelf_bytes.specs.Layout.{gap_closed};

// Zeros at the end take the place of the record that is gone.
pub fn close_gap(area: &mut [u8], from: usize, size: usize)
    ensures { area.new ≡ gap_closed area.old from size }
{
    if area.len() < from || area.len() - from < size {
        return;
    }
    area.copy_within(from + size.., from);
    let end = area.len() - size;
    area[end..].fill(0);
}
