ghost use Rattle.std.specs.Prelude.{◌≡◌, ◌<◌, ◌≤◌, ◌-◌, ◌^◌, ◌⊎◌, ◌&&◌, true, false, not, is_ok, IsErr, OnOk, OnErr};

use crate::DeviceFault;

/// How many calls of each kind a device had since it was made, failed ones too.
#[derive(Clone, Copy)]
pub struct Counts {
    pub reads: u64,
    pub writes: u64,
    pub cuts: u64,
    pub syncs: u64,
}

/// Which calls are to fail, and how many did.
#[derive(Clone, Copy)]
pub(crate) struct Script {
    // the call that fails, counted from the next, which is 1; 0 for none
    pub(crate) fail_in: u64,
    // the first of the calls that all fail; 0 for none
    pub(crate) stop_in: u64,
    pub(crate) failures: u64,
}

impl Script {
    ghost use Rattle.device.specs.Script.{is_to_fail, after_call};

    /// Goes on by one call, which fails if it was asked to or is not possible.
    pub(crate) fn next_call(&mut self, possible: bool) -> Result<(), DeviceFault>
        ensures answer { is_ok result ≡ (possible && not (is_to_fail self.old)) }
        ensures ok { OnOk result (self.new ≡ after_call false self.old) }
        ensures err { OnErr result (self.new ≡ after_call true self.old) }
        ensures later { self.old.failures ≤ self.new.failures }
        ensures cause { IsErr result → (self.old.failures < self.new.failures) ⊎ (self.new.failures ≡ 2 ^ 64 - 1) }
    {
        let fails = self.fail_in == 1 || self.stop_in == 1 || !possible;
        self.fail_in = self.fail_in.saturating_sub(1);
        if self.stop_in != 1 {
            self.stop_in = self.stop_in.saturating_sub(1);
        }
        if fails {
            self.failures = self.failures.saturating_add(1);
            Err(DeviceFault)
        } else {
            Ok(())
        }
    }
}
