// Holds what was answered to what is recorded, and writes a line for what differs.
use crate::operation::Operation;
use crate::reader::{Malformed, Reader};
use crate::said::Said;
use std::fmt::Display;
use std::io;

// An answer as it is recorded.
#[derive(Clone, Copy)]
pub struct Recorded<'a> {
    number: u8,
    values: &'a [[u8; 8]],
}

impl<'a> Recorded<'a> {
    pub fn read(file: &mut Reader<'a>) -> Result<Recorded<'a>, Malformed> {
        let [number] = file.array::<1>()?;
        let [count] = file.array::<1>()?;
        let (values, _) = file.take(8 * usize::from(count))?.as_chunks();
        Ok(Recorded { number, values })
    }
}

// A record, and whether all that was held to it so far agreed.
#[derive(Drop)]
pub struct Judge<'a> {
    rt: &'a HostRuntime,
    index: u32,
    operation: Operation,
    pub agreed: bool,
}

impl<'a> Judge<'a> {
    pub fn new(rt: &'a HostRuntime, index: u32, operation: Operation) -> Judge<'a> {
        Judge {
            rt,
            index,
            operation,
            agreed: true,
        }
    }

    // Holds a part of the answer, or of what the call left, to what is recorded. Parts of a kind are
    // counted from 0.
    pub fn hold(
        &mut self,
        part: impl Display + Drop,
        expected: u64,
        answered: u64,
    ) -> io::Result<()> {
        if expected == answered {
            return Ok(());
        }
        self.agreed = false;
        let index = self.index;
        let operation = self.operation;
        println!(self.rt;
            "record {index} {operation:16} {part}: expected {expected}, but was {answered}"
        )
    }

    // Holds the number and each value; the first value that isn't as recorded has a line. In that line
    // a value that the answer doesn't have is 0.
    pub fn hold_said(&mut self, recorded: Recorded<'_>, said: Said) -> io::Result<()> {
        self.hold(
            "number",
            u64::from(recorded.number),
            u64::from(said.number()),
        )?;
        let values = said.values();
        self.hold(
            "count of values",
            recorded.values.len() as u64,
            values.len() as u64,
        )?;
        for (i, bytes) in recorded.values.iter().enumerate() {
            let expected = u64::from_le_bytes(*bytes);
            let answered = values.get(i).copied().unwrap_or(0);
            if expected != answered {
                return self.hold(format_args!("value {i}"), expected, answered);
            }
        }
        Ok(())
    }

    // Holds all bytes that were lent; the first that isn't as recorded has a line.
    pub fn hold_bytes(&mut self, expected: &[u8], left: &[u8]) -> io::Result<()> {
        if expected == left {
            return Ok(());
        }
        for (i, (right, is)) in expected.iter().zip(left).enumerate() {
            if right != is {
                return self.hold(format_args!("byte {i}"), u64::from(*right), u64::from(*is));
            }
        }
        Ok(())
    }
}
