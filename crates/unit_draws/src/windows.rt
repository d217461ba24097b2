//! The windows that a file's units stand in.
ghost use Rattle.std.specs.Prelude.{◌≡◌, ◌<◌};
ghost use Rattle.unit_draws.specs.Windows.{window_count, window_length};

/// How many units a window has. The last one of a file may have fewer.
pub const WINDOW: u32 = 256;

/// How many windows so many units stand in. A file without units has one window, which is empty.
pub fn count_windows(units: u32) -> u32
    ensures { result ≡ window_count units }
{
    units.saturating_sub(1) / WINDOW + 1
}

/// How many units a window has.
pub(crate) fn length_of(units: u32, window: u32) -> u32
    requires { window < window_count units }
    ensures { result ≡ window_length units window }
{
    WINDOW.min(units - WINDOW * window)
}
