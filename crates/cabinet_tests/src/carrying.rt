//! Tests of lines that are carried out in archives, by each scan, and where a read or a write fails.
use crate::archives::{A_APART, LOOSE};
use cabinet::{
    Asked, EditAnswer, Group1, Group8, Group16, Line, RunCause, Scan, open, open_scanned,
    read_line, run,
};
use cabinet_doubles::archives::A_TO_WORLD;
use cabinet_doubles::{Edit, FailingWriter, ROWS, Row, SliceSource, count_lines};
use std::alloc::Global;
use std::test::Fail;

/// What a run left: why it ended early, if it did, how many lines it carried out, and its answers.
type Ran = (Option<RunCause>, usize, Vec<u8>);

/// Carries out the lines of a row by a scan: a source gives `most` bytes at a time and fails after `reads` reads, and a
/// writer fails after `writes` writes, of which it then writes `prefix` bytes. Returns nothing where the bytes of the
/// archive or the number of edits are not those after the lines.
fn carried_out<G: Scan>(
    alloc: Global,
    row: &Row<'_, '_>,
    (reads, most): (usize, usize),
    (writes, prefix): (usize, usize),
) -> Option<Ran> {
    let mut bytes = Vec::from_slice(alloc, row.archive).ok()?;
    let mut wanted = Vec::from_slice(alloc, row.archive).ok()?;
    let mut source = SliceSource::new(row.lines, reads, most);
    let mut writer = FailingWriter::new(alloc, writes, prefix);
    let mut opened = open_scanned::<G>(alloc, bytes.as_mut_slice()).ok()?;
    let (cause, lines, edits) = match run(alloc, &mut opened, &mut source, &mut writer) {
        Ok(count) => (None, count.lines, count.edits),
        Err(fault) => (Some(fault.cause), fault.lines, fault.edits),
    };
    let lines = usize::try_from(lines).ok()?;
    row.change(wanted.as_mut_slice(), lines);
    if bytes.as_slice() != wanted.as_slice() || row.edits(lines) != edits {
        return None;
    }
    Some((cause, lines, Vec::from_slice(alloc, writer.bytes()).ok()?))
}

/// Returns whether all lines of a row are carried out by a scan, with a source that gives `most` bytes at a time.
fn is_carried_out<G: Scan>(alloc: Global, row: &Row<'_, '_>, most: usize) -> bool {
    match carried_out::<G>(alloc, row, (usize::MAX, most), (usize::MAX, 0)) {
        Some((None, lines, answers)) => {
            lines == count_lines(row.lines) && answers.as_slice() == row.answers
        }
        _ => false,
    }
}

/// A hashed map of one text, which is written over by a text of its length alone; a key in another place that its search
/// shows; and an ordered map with other bytes where no field is, which stay.
const MAPS: [Row<'static, 'static>; 3] = [
    Row {
        text: b"hashed 1\n'a\ntext 'world\n",
        archive: A_TO_WORLD,
        lines: b"set text 'WORLD 'a\nget 'a\nset text 'worlds 'a\nget 'a\nkeys\nget 'b\n",
        answers: b"ok\ntext 'WORLD\nrefused\ntext 'WORLD\nwrong\nmissing\n",
        edit: Some(Edit {
            line: 0,
            position: 12,
            bytes: b"WORLD",
        }),
    },
    Row {
        text: b"hashed 1\n'a\nint 1\n",
        archive: A_APART,
        lines: b"get 'a\nget 'b\n",
        answers: b"int 1\nmissing\n",
        edit: None,
    },
    Row {
        text: b"ordered 2\n'coffee\nint 300\n'tea\nint 250\n",
        archive: LOOSE,
        lines: b"set int 275 'tea\n",
        answers: b"ok\n",
        edit: Some(Edit {
            line: 0,
            position: 80,
            bytes: b"\x13\x01",
        }),
    },
];

#[test]
fn lines_in_pieces_are_carried_out_by_each_scan(rt: HostRuntime) {
    for row in ROWS.iter().chain(&MAPS) {
        for most in [1, 2, 3, 5, 7, 16, 16384] {
            assert!(rt; is_carried_out::<Group1>(rt.alloc(), row, most));
            assert!(rt; is_carried_out::<Group8>(rt.alloc(), row, most));
            assert!(rt; is_carried_out::<Group16>(rt.alloc(), row, most));
        }
    }
}

/// Returns whether a source of one byte at a time that fails after `reads` reads ends a run after each whole line before.
fn is_unread(alloc: Global, row: &Row<'_, '_>, reads: usize) -> bool {
    match carried_out::<Group16>(alloc, row, (reads, 1), (usize::MAX, 0)) {
        Some((Some(RunCause::Read), lines, answers)) => {
            lines == count_lines(&row.lines[..reads.min(row.lines.len())])
                && row.has_answers(answers.as_slice(), lines, false)
        }
        _ => false,
    }
}

#[test]
fn each_read_fails_after_the_whole_lines_before_it(rt: HostRuntime) {
    for row in ROWS {
        // one more read finds the end
        for reads in 0..=row.lines.len() {
            assert!(rt; is_unread(rt.alloc(), &row, reads));
        }
    }
}

/// Returns the number of writes that fail, each after the answers before it, where of a piece that fails `prefix` bytes are
/// written.
fn count_unwritten(alloc: Global, row: &Row<'_, '_>, prefix: usize) -> usize {
    for writes in 0..=row.answers.len() {
        match carried_out::<Group16>(alloc, row, (usize::MAX, 7), (writes, prefix)) {
            Some((Some(RunCause::Write), lines, answers))
                if row.has_answers(answers.as_slice(), lines.saturating_sub(1), true) => {}
            Some((None, _, _)) => return writes,
            _ => return 0,
        }
    }
    0
}

#[test]
fn each_write_fails_after_the_answers_before_it(rt: HostRuntime) {
    for row in ROWS {
        // an answer is written in one piece or more
        let writes = count_unwritten(rt.alloc(), &row, 0);
        assert!(rt; writes >= count_lines(row.answers));
        for prefix in 1..=row.answers.len() {
            assert!(rt; count_unwritten(rt.alloc(), &row, prefix) == writes);
        }
    }
}

#[test]
fn questions_and_edits_tell_what_came_of_them(rt: HostRuntime) -> Result<(), Fail> {
    let mut archive = *A_TO_WORLD;
    let mut opened = open(rt.alloc(), &mut archive).map_err(|_| "refused")?;
    let mut answers = Vec::new(rt.alloc());
    for (question, asked) in [
        (b"get 'a".as_slice(), Asked::Answered),
        (b"get 'b", Asked::Missing),
        (b"keys", Asked::Wrong),
    ] {
        let line = read_line(rt.alloc(), question)?;
        assert!(rt; line.is_question());
        assert!(rt; opened.ask(&line, &mut answers)? == asked);
    }
    assert!(rt; answers.as_slice() == b"text 'world\nmissing\nwrong\n".as_slice());
    for (edit, answer) in [
        (b"set text 'WORLD 'a".as_slice(), EditAnswer::Done),
        (b"set text 'worlds 'a", EditAnswer::Refused),
        (b"set int 9", EditAnswer::Refused),
        (b"set int 9 'b", EditAnswer::Missing),
    ] {
        let Line::Set { path, leaf } = read_line(rt.alloc(), edit)? else {
            return Err(Fail::from("no edit"));
        };
        assert!(rt; opened.set(&path, &leaf) == answer);
    }
    Ok(())
}
