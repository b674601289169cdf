// Document 01's three entries in namespace 1 with key A7 (insert 9, update 10, tombstone), byte for
// byte as its rules give them. The checksums come from elsewhere: Python's binascii.crc_hqx.
ghost use Rattle.std.specs.Prelude.{◌≡◌, length};

use answers::LogFile;
use append::Item;
use entry::Entry;

// Document 01's trials are of a version 1 file, whose ordinal no mark depends on.
pub const FILE: LogFile = LogFile {
    version: 1,
    ordinal: 7,
};

pub const THREE: [u8; 48] = [
    0xc0, 0x17, 0x5a, 0x01, 0x02, 0x00, 0x01, 0x00, 0x39, 0x41, 0x37, 0xbf, 0xdc, 0xff, 0xff, 0xff,
    0xc1, 0x17, 0x5a, 0x41, 0x02, 0x00, 0x02, 0x00, 0x31, 0x30, 0x41, 0x37, 0x0d, 0xa9, 0xff, 0xff,
    0xc2, 0x17, 0x5a, 0x81, 0x02, 0x00, 0x41, 0x37, 0xc0, 0x70, 0xff, 0xff, 0xff, 0xff, 0xff, 0xff,
];

// The same three in a version 2 file of ordinal 7 (document 02, request 10): each mark is 7 more, and
// the checksums are others, from the same source.
pub const THREE_IN_VERSION_2: [u8; 48] = [
    0xc7, 0x17, 0x5a, 0x01, 0x02, 0x00, 0x01, 0x00, 0x39, 0x41, 0x37, 0x02, 0xf5, 0xff, 0xff, 0xff,
    0xc8, 0x17, 0x5a, 0x41, 0x02, 0x00, 0x02, 0x00, 0x31, 0x30, 0x41, 0x37, 0xd0, 0xb1, 0xff, 0xff,
    0xc9, 0x17, 0x5a, 0x81, 0x02, 0x00, 0x41, 0x37, 0x6f, 0xa6, 0xff, 0xff, 0xff, 0xff, 0xff, 0xff,
];

// The first of document 01's without its filling.
pub const THIRTEEN: [u8; 13] = [
    0xc0, 0x17, 0x5a, 0x01, 0x02, 0x00, 0x01, 0x00, 0x39, 0x41, 0x37, 0xbf, 0xdc,
];

// One byte changed, where the bytes have it.
pub fn change(bytes: &mut [u8], at: usize, byte: u8) {
    if let Some(old) = bytes.get_mut(at) {
        *old = byte;
    }
}

// The three with one byte changed.
pub fn changed(at: usize, byte: u8) -> [u8; 48]
    ensures { 48 ≡ length result }
{
    let mut region = THREE;
    change(&mut region, at, byte);
    region
}

pub fn file(version: u64, ordinal: u64) -> LogFile {
    LogFile { version, ordinal }
}

// What the trials append: the key A7 with this value.
pub fn item(kind: u64, ns: u64, value: &[u8]) -> Item<'_> {
    Item {
        kind,
        ns,
        key: b"A7",
        value,
    }
}

pub fn insert() -> Entry {
    Entry {
        offset: 0,
        kind: 0,
        ns: 1,
        klen: 2,
        vlen: 1,
        vplace: 8,
        kplace: 9,
        end: 13,
    }
}

pub fn update() -> Entry {
    Entry {
        offset: 16,
        kind: 1,
        ns: 1,
        klen: 2,
        vlen: 2,
        vplace: 24,
        kplace: 26,
        end: 30,
    }
}

pub fn tombstone() -> Entry {
    Entry {
        offset: 32,
        kind: 2,
        ns: 1,
        klen: 2,
        vlen: 0,
        vplace: 38,
        kplace: 38,
        end: 42,
    }
}
