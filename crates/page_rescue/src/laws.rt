//! What it is that contents grow, by example. The function does nothing: its contract is the law.
ghost use Rattle.page_rescue.specs.Examples.{a, key_b, x_and_y, x_at_a, y, y_at_a};
ghost use Rattle.page_rescue.specs.Rescue.{GrowsBy, Is};

/// Contents grow by a record at a new key. A record that is put over another is no growth.
pub fn growth_by_example()
    ensures new { GrowsBy (Is key_b y) x_at_a x_and_y }
    ensures over { ¬ GrowsBy (Is a y) x_at_a y_at_a }
{}
