// An answer as it is recorded: document 01's number, 0 where it is accepted, and the values. With
// some refusals values go too.
use answers::{LogFile, Refusal, Stopped};
use entry::Entry;
use tail::CountedEnd;
use tracker::{Finish, Progress, Reserved};

// The most values that an answer has.
const MOST_VALUES: usize = 9;

// Nothing here allocates, so the values stand in a room of a fixed size, with their count beside it.
#[derive(Clone, Copy)]
pub struct Said {
    pub refusal: Option<Refusal>,
    room: [u64; MOST_VALUES],
    count: usize,
}

impl Said {
    pub fn accepted(values: &[u64]) -> Said {
        let said = Said {
            refusal: None,
            room: [0; MOST_VALUES],
            count: 0,
        };
        said.with(values)
    }

    // The same answer with more values behind its own.
    fn with(self, more: &[u64]) -> Said {
        let mut said = self;
        for (free, value) in said.room.iter_mut().skip(self.count).zip(more) {
            *free = *value;
        }
        said.count = self.count.saturating_add(more.len()).min(MOST_VALUES);
        said
    }

    pub fn number(self) -> u32 {
        match self.refusal {
            Some(refusal) => refusal.number(),
            None => 0,
        }
    }

    pub fn values(&self) -> &[u64] {
        &self.room[..self.count.min(MOST_VALUES)]
    }
}

// ---- what an accepted answer has

impl From<()> for Said {
    fn from(_accepted: ()) -> Said {
        Said::accepted(&[])
    }
}

impl From<u16> for Said {
    fn from(checksum: u16) -> Said {
        Said::accepted(&[u64::from(checksum)])
    }
}

impl From<u64> for Said {
    fn from(number: u64) -> Said {
        Said::accepted(&[number])
    }
}

impl From<usize> for Said {
    fn from(place: usize) -> Said {
        Said::accepted(&[place as u64])
    }
}

// A sum in two's complement.
impl From<i64> for Said {
    fn from(sum: i64) -> Said {
        Said::accepted(&[sum.cast_unsigned()])
    }
}

impl From<LogFile> for Said {
    fn from(file: LogFile) -> Said {
        Said::accepted(&[file.version, file.ordinal])
    }
}

impl From<Entry> for Said {
    fn from(e: Entry) -> Said {
        Said::accepted(&[
            e.offset as u64,
            e.kind,
            e.ns,
            e.klen as u64,
            e.vlen as u64,
            e.vplace as u64,
            e.kplace as u64,
            e.end as u64,
        ])
    }
}

impl From<Reserved> for Said {
    fn from(reserved: Reserved) -> Said {
        Said::accepted(&[reserved.number, reserved.place])
    }
}

impl From<Finish> for Said {
    fn from(finish: Finish) -> Said {
        match finish {
            Finish::Done => Said::accepted(&[1]),
            Finish::Stale => Said::accepted(&[0]),
        }
    }
}

impl From<Progress> for Said {
    fn from(p: Progress) -> Said {
        Said::accepted(&[
            p.ordinal,
            p.offset,
            p.sum.cast_unsigned(),
            p.limit,
            u64::from(p.pending),
        ])
    }
}

// 1 and what there is, or 0.
impl<A: Into<Said>> From<Option<A>> for Said {
    fn from(found: Option<A>) -> Said {
        match found {
            Some(it) => {
                let said: Said = it.into();
                Said::accepted(&[1]).with(said.values())
            }
            None => Said::accepted(&[0]),
        }
    }
}

// ---- refusals, and answers that may be one

impl From<Refusal> for Said {
    fn from(refusal: Refusal) -> Said {
        let mut said = Said::accepted(&[]);
        said.refusal = Some(refusal);
        said
    }
}

impl From<Stopped> for Said {
    fn from(stopped: Stopped) -> Said {
        match stopped {
            Stopped::Refused(refusal) => Said::from(refusal),
            Stopped::UnknownAt(place) => { Said::from(Refusal::UnknownType).with(&[place as u64]) }
        }
    }
}

impl<A: Into<Said>, E: Into<Said>> From<Result<A, E>> for Said {
    fn from(answer: Result<A, E>) -> Said {
        match answer {
            Ok(accepted) => accepted.into(),
            Err(refused) => refused.into(),
        }
    }
}

// Lines tried and bytes checksummed, behind the end or the place of 10. The other refusals come before
// any line is tried.
impl From<CountedEnd> for Said {
    fn from(counted: CountedEnd) -> Said {
        let effort = counted.effort;
        let said = Said::from(counted.end);
        match counted.end {
            Err(Stopped::Refused(_)) => said,
            _ => said.with(&[effort.lines as u64, effort.bytes as u64]),
        }
    }
}
