//! Scripts over readers and writers of all kinds.
use std::alloc::{AllocError, Global};
use std::io::{self, Error, ErrorKind, Read, Write};
use std::test::Fail;
use values_lines::{RunFault, Script, play, play_until};

/// A script that answers each line by itself.
#[derive(Drop)]
struct Echo;

impl Script for Echo {
    ghost use Rattle.std.specs.Prelude.{◌≡◌};

    ghost answers = { λ _ line answer _. answer ≡ line };

    fn answer(
        &mut self,
        _alloc: Global,
        line: &[u8],
        text: &mut Vec<u8>,
    ) -> Result<(), AllocError> {
        text.extend_from_slice(line)
    }
}

/// Hands out pieces, one a read, and fails once they are spent.
#[derive(Drop)]
struct Pieces<'a> {
    pieces: &'a [&'a [u8]],
    next: usize,
}

impl Read for Pieces<'_> {
    fn read(&mut self, buffer: &mut [u8]) -> io::Result<usize> {
        let Some(piece) = self.pieces.get(self.next) else {
            return Err(Error::from(ErrorKind::Other));
        };
        let count = piece.len().min(buffer.len());
        buffer[..count].copy_from_slice(&piece[..count]);
        self.next = self.next.saturating_add(1);
        Ok(count)
    }
}

/// These pieces, one after another.
fn pieces_of<'a>(pieces: &'a [&'a [u8]]) -> Pieces<'a> {
    Pieces { pieces, next: 0 }
}

/// A writer that takes so many octets, one a call, and then fails.
#[derive(Drop)]
struct Narrow {
    taken: Vec<u8>,
    room: usize,
}

impl Write for Narrow {
    fn write(&mut self, buffer: &[u8]) -> io::Result<usize> {
        match buffer.first() {
            Some(octet) if self.room > 0 => {
                self.taken.push(*octet)?;
                self.room = self.room.saturating_sub(1);
                Ok(1)
            }
            Some(_) => Err(Error::from(ErrorKind::Other)),
            None => Ok(0),
        }
    }

    fn flush(&mut self) -> io::Result<()> {
        Ok(())
    }
}

/// Whether the pieces of an input are answered so, by a script that ends before its last line,
/// where one is named, into a writer with so much room.
fn is_played(
    alloc: Global,
    pieces: &[&[u8]],
    last: Option<&[u8]>,
    room: usize,
    wanted: &[u8],
    outcome: Result<(), RunFault>,
) -> bool {
    let mut reader = pieces_of(pieces);
    let mut writer = Narrow {
        taken: Vec::new(alloc),
        room,
    };
    let done = match last {
        Some(last) => play_until(alloc, &mut Echo, last, &mut reader, &mut writer),
        None => play(alloc, &mut Echo, &mut reader, &mut writer),
    };
    done == outcome && writer.taken.as_slice() == wanted
}

/// More room than any answer takes.
const ROOM: usize = 1_000_000;

/// What is answered to the pieces of an input, up to its last line, where one is named; behind its
/// last piece its reader fails. An empty piece is the input's end, which is asked for once more
/// behind a last line without its end.
const INPUTS: &[(
    &str,
    &[&[u8]],
    Option<&[u8]>,
    usize,
    &[u8],
    Result<(), RunFault>,
)] = &[
    ("nothing", &[b""], None, ROOM, b"", Ok(())),
    (
        "a last line without its end",
        &[b"a", b"", b""],
        None,
        ROOM,
        b"a\n",
        Ok(()),
    ),
    ("a line", &[b"a\n", b""], None, ROOM, b"a\n", Ok(())),
    (
        "empty lines",
        &[b"\n\na b\n", b""],
        None,
        ROOM,
        b"\n\na b\n",
        Ok(()),
    ),
    (
        "CR is no end of a line",
        &[b"a\r\n\nb", b"", b""],
        None,
        ROOM,
        b"a\r\n\nb\n",
        Ok(()),
    ),
    (
        "the reader fails in a line",
        &[b"o", b"n", b"e", b"\n", b"t", b"w", b"o"],
        None,
        ROOM,
        b"one\n",
        Err(RunFault::Io),
    ),
    (
        "nothing is read behind the last line",
        &[b"one\n", b"two\nquit\n"],
        Some(b"quit"),
        ROOM,
        b"one\ntwo\n",
        Ok(()),
    ),
    (
        "what was read behind it is not answered",
        &[b"quit\nthree\n"],
        Some(b"quit"),
        ROOM,
        b"",
        Ok(()),
    ),
    (
        "it comes in two pieces",
        &[b"one\nqui", b"t\nthree\n"],
        Some(b"quit"),
        ROOM,
        b"one\n",
        Ok(()),
    ),
    (
        "it may be the input's end",
        &[b"one\nquit", b""],
        Some(b"quit"),
        ROOM,
        b"one\n",
        Ok(()),
    ),
    (
        "others begin as it does",
        &[b"quits\nqui\nquit \n", b""],
        Some(b"quit"),
        ROOM,
        b"quits\nqui\nquit \n",
        Ok(()),
    ),
    (
        "it never comes",
        &[b"one\ntwo", b"", b""],
        Some(b"quit"),
        ROOM,
        b"one\ntwo\n",
        Ok(()),
    ),
    (
        "the reader fails before it",
        &[b"one\nquit"],
        Some(b"quit"),
        ROOM,
        b"one\n",
        Err(RunFault::Io),
    ),
    (
        "no room",
        &[b"one\nicp\n", b""],
        None,
        0,
        b"",
        Err(RunFault::Io),
    ),
    (
        "room for 1",
        &[b"one\nicp\n", b""],
        None,
        1,
        b"o",
        Err(RunFault::Io),
    ),
    (
        "room for 2",
        &[b"one\nicp\n", b""],
        None,
        2,
        b"on",
        Err(RunFault::Io),
    ),
    (
        "room for 3",
        &[b"one\nicp\n", b""],
        None,
        3,
        b"one",
        Err(RunFault::Io),
    ),
    (
        "room for 4",
        &[b"one\nicp\n", b""],
        None,
        4,
        b"one\n",
        Err(RunFault::Io),
    ),
    (
        "room for 5",
        &[b"one\nicp\n", b""],
        None,
        5,
        b"one\ni",
        Err(RunFault::Io),
    ),
    (
        "room for 6",
        &[b"one\nicp\n", b""],
        None,
        6,
        b"one\nic",
        Err(RunFault::Io),
    ),
    (
        "room for 7",
        &[b"one\nicp\n", b""],
        None,
        7,
        b"one\nicp",
        Err(RunFault::Io),
    ),
];

#[test]
fn inputs_are_played(rt: HostRuntime) -> Result<(), Fail> {
    for (what, pieces, last, room, wanted, outcome) in INPUTS {
        assert!(rt;
            is_played(rt.alloc(), pieces, *last, *room, wanted, *outcome),
            "{what}"
        );
    }
    Ok(())
}
