//! The sizes of a table.
ghost use Rattle.std.specs.Prelude.{◌≡◌, ◌≤◌};
ghost use Rattle.map_core.specs.Sizes.{cells_of, IsLastFor};
ghost use Rattle.map_core.specs.declared.layout.TheConstants.{MOST_ENTRIES, MOST_PASSES};

/// The greatest capacity of a table.
pub const MOST_ENTRIES: u64 = 4194304;

/// The most passes of a table.
pub const MOST_PASSES: u32 = 128;

/// The sizes of a table: how many entries it has room for, how many passes may be made, and its last generation.
///
/// Generation `g` has `64 * 2^g` cells. The last generation is the first whose cells are at least four thirds of
/// `capacity + passes`.
#[derive(Clone, Copy)]
pub struct Layout {
    pub capacity: u64,
    pub passes: u32,
    pub last: u32,
    pub ghost capacity_fits: { (1 ≤ capacity) × (capacity ≤ MOST_ENTRIES) },
    pub ghost passes_fit: { (1 ≤ passes) × (passes ≤ MOST_PASSES) },
    pub ghost last_fits: { IsLastFor capacity passes last },
}

impl Layout {
    /// The sizes for this many entries and passes.
    pub fn of(capacity: u64, passes: u32) -> Layout
        requires capacity { (1 ≤ capacity) × (capacity ≤ MOST_ENTRIES) }
        requires passes { (1 ≤ passes) × (passes ≤ MOST_PASSES) }
        ensures capacity { result.capacity ≡ capacity }
        ensures passes { result.passes ≡ passes }
        ensures last { IsLastFor capacity passes result.last }
    {
        let needed = 4 * (capacity + u64::from(passes));
        let mut last = 0;
        while 3 * (64u64 << last) < needed {
            last += 1;
        }
        Layout {
            capacity,
            passes,
            last,
        }
    }

    /// How many cells a generation has.
    pub fn cells(&self, generation: u32) -> u64
        requires { generation ≤ self.now.last }
        ensures { result ≡ cells_of generation }
    {
        64 << generation
    }
}
