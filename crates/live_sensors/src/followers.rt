use bmc_base::OutOfMemory;
use std::alloc::Global;

// How many sensors have a follower: as many as are ever live.
const MOST_SENSORS: usize = 4096;

/// The follower of each sensor, both by position: the sensor that was asked for behind it the last time. Sensors are mostly polled
/// in one order, and then the follower is asked for next. It is a guess, on which no answer rests.
#[derive(Drop)]
pub(crate) struct Followers {
    // The sensor that was asked for last.
    last: usize,
    followers: Vec<u16>,
}

impl Followers {
    /// Returns the followers before any sensor was asked for.
    pub(crate) fn new(alloc: Global) -> Result<Followers, OutOfMemory> {
        Ok(Followers {
            last: 0,
            followers: vec![in alloc; 0; MOST_SENSORS]?,
        })
    }

    /// Returns the follower of the sensor that was asked for last.
    #[inline(always)]
    pub(crate) fn expected(&self) -> usize {
        match self.followers.get(self.last) {
            Some(follower) => usize::from(*follower),
            None => 0,
        }
    }

    /// Notes that a sensor is asked for.
    #[inline(always)]
    pub(crate) fn note(&mut self, position: usize) {
        if let (Some(follower), Ok(this)) = (
            self.followers.get_mut(self.last),
            u16::try_from(position),
        ) {
            *follower = this;
        }
        self.last = position;
    }
}
