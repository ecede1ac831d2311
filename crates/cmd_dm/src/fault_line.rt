ghost use Rattle.std.specs.Prelude.{◌≡◌, ◌≢◌, ◌++◌, IfOk, codes, decimal, string_bytes};
ghost use Rattle.std.specs.List.{flat_map};
ghost use Rattle.outside_dm.specs.Putting.{Passes};
ghost use Rattle.cmd_dm.specs.FaultLine.{file_text, line_of, Tells};
ghost use Rattle.cmd_dm.specs.Pieces.{piece_text};

use crate::causes::cause_name;
use crate::status::{File, Reason, Status};
use itoa::Buffer;
use outside_dm::{NoFaultSink, PutError, Sink};
use std::alloc::{AllocError, Global};
use std::str;

/// A part of a line.
#[derive(Clone, Copy, Drop)]
pub(crate) enum Piece {
    /// The text itself.
    Text(&'static str),

    /// A number in decimal digits.
    Number(u64),

    /// A label and a number behind it, or nothing where the number is 0.
    Field(&'static str, u64),
}

/// Puts a number in decimal digits.
fn put_number<D: Sink>(number: u64, diag: &mut D) -> Result<(), PutError>
    ensures { Passes (decimal number) (D.state diag.old) (D.state diag.new) result }
{
    let mut digits = Buffer::new();
    diag.put(digits.format(number).as_bytes())
}

/// Puts a label and a number.
fn put_labelled<D: Sink>(label: &str, number: u64, diag: &mut D) -> Result<(), PutError>
    ensures { Passes (label.now ++ decimal number) (D.state diag.old) (D.state diag.new) result }
{
    diag.put(label.as_bytes())?;
    put_number(number, diag)
}

/// Puts a part of a line, without memory.
fn put_piece<D: Sink>(piece: &Piece, diag: &mut D) -> Result<(), PutError>
    ensures { Passes (piece_text piece.now) (D.state diag.old) (D.state diag.new) result }
{
    match piece {
        Piece::Text(text) => diag.put(text.as_bytes()),
        Piece::Number(number) => put_number(*number, diag),
        Piece::Field(_, 0) => Ok(()),
        Piece::Field(label, number) => put_labelled(label, *number, diag),
    }
}

/// Puts the parts of a line in order.
fn put_pieces<D: Sink>(pieces: &[Piece], diag: &mut D) -> Result<(), PutError>
    ensures { Passes (flat_map piece_text pieces.now) (D.state diag.old) (D.state diag.new) result }
{
    for piece in pieces {
        put_piece(piece, diag)?;
    }
    Ok(())
}

/// Puts the line on a file.
fn put_file_line<D: Sink>(label: &'static str, file: &File, diag: &mut D) -> Result<(), PutError>
    ensures { Passes (label.now ++ (file_text file.now ++ codes "\n")) (D.state diag.old) (D.state diag.new) result }
{
    match file {
        File::Schema => put_pieces(&[Piece::Text(label), Piece::Text("schema\n")], diag),
        File::Table(number) => put_pieces(
            &[
                Piece::Text(label),
                Piece::Text("table "),
                Piece::Number(*number),
                Piece::Text("\n"),
            ],
            diag,
        ),
        File::Query => put_pieces(&[Piece::Text(label), Piece::Text("query\n")], diag),
        File::Graph => put_pieces(&[Piece::Text(label), Piece::Text("graph\n")], diag),
        File::Pattern => put_pieces(&[Piece::Text(label), Piece::Text("pattern\n")], diag),
        File::More(number) => put_pieces(
            &[
                Piece::Text(label),
                Piece::Text("more "),
                Piece::Number(*number),
                Piece::Text("\n"),
            ],
            diag,
        ),
    }
}

/// Puts the line on a refusal.
#[tactic(auto, unfolding(crate::specs::FaultLine::line_of))]
fn put_refusal<D: Sink>(reason: &Reason, diag: &mut D) -> Result<(), PutError>
    ensures { Passes (line_of (Status.Refused reason.now)) (D.state diag.old) (D.state diag.new) result }
{
    put_pieces(
        &[
            Piece::Text("dbrdf: refused "),
            Piece::Number(u64::from(reason.code)),
            Piece::Text(" "),
            Piece::Text(cause_name(reason.code)),
            Piece::Field(" table ", reason.table),
            Piece::Field(" place ", reason.place),
            Piece::Field(" column ", reason.column),
            Piece::Text("\n"),
        ],
        diag,
    )
}

/// Puts the line of a status, in parts that take no memory.
#[tactic(auto, unfolding(crate::specs::FaultLine::line_of))]
fn put_line<D: Sink>(status: &Status, diag: &mut D) -> Result<(), PutError>
    requires { status.now ≢ Status.Ok }
    ensures { Passes (line_of status.now) (D.state diag.old) (D.state diag.new) result }
{
    match status {
        Status::Ok => unreachable!(),
        Status::Refused(reason) => put_refusal(reason, diag),
        Status::Usage => put_piece(&Piece::Text("dbrdf: usage\n"), diag),
        Status::Absent(file) => put_file_line("dbrdf: absent ", file, diag),
        Status::ReadFault(file) => put_file_line("dbrdf: read fault ", file, diag),
        Status::WriteFault => put_piece(&Piece::Text("dbrdf: write fault\n"), diag),
        Status::Memory => put_piece(&Piece::Text("dbrdf: memory\n"), diag),
        Status::TooLong(file) => put_file_line("dbrdf: too long ", file, diag),
    }
}

/// Tells how a run ended: nothing where it ended well, and else the line of the status. A put that is refused ends
/// the line.
pub(crate) fn tell<D: Sink>(status: &Status, diag: &mut D)
    ensures { Tells status.now (D.state diag.old) (D.state diag.new) }
{
    if *status != Status::Ok {
        let _ = put_line(status, diag);
    }
}

/// The line that tells how a run ended, with its LF: `dbrdf: `, the status, and of a refusal the code, the name of
/// its cause and its places. Refused for want of memory alone.
pub fn fault_text(alloc: Global, status: &Status) -> Result<String, AllocError>
    requires { status.now ≢ Status.Ok }
    ensures { IfOk result (λ line. string_bytes line ≡ line_of status.now) }
{
    let mut line = NoFaultSink::new(alloc);
    if put_line(status, &mut line).is_err() {
        return Err(AllocError);
    }
    match str::from_utf8(line.bytes()) {
        Ok(text) => String::from_str(alloc, text),
        Err(_) => Err(AllocError),
    }
}
