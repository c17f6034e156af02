// The sign table, printed for a person.
use crate::failure::Failure;
use crate::tape::row;
use cells::cell_strip::CellStrip;
use cells::strip::Strip;
use console::show::Notation;
use signs::listing::Written;
use signs::table::SignTable;
use tables::house::{HouseSigns, check_house};
use tables::ueb::Ueb;

// Prints the print signs of UEB, and then the house signs that are laid over them; or nothing.
pub(crate) fn print_signs(rt: &(impl Print + AllocGlobal), codes: &[u32]) -> Result<(), Failure> {
    check_house(&Ueb, codes)?;
    let table = HouseSigns::lay(Ueb, codes);
    println!(rt; "sign  code      cells  dots")?;
    for listed in Ueb.signs() {
        print_sign(rt, &table, listed.code)?;
    }
    for code in codes {
        print_sign(rt, &table, *code)?;
    }
    Ok(())
}

// Prints one sign that the table lists.
fn print_sign<T: SignTable>(
    rt: &(impl Print + AllocGlobal),
    table: &T,
    code: u32,
) -> Result<(), Failure> {
    let Some(string) = table.string_of(code) else {
        return Ok(());
    };
    let strip = CellStrip(string);
    let characters = row(rt.alloc(), &strip, 0..strip.len(), Notation::BrailleAscii)?;
    let dots = row(rt.alloc(), &strip, 0..strip.len(), Notation::Dots)?;
    let sign = shown(code);
    let number = format!(in rt.alloc(); "U+{code:04X}")?;
    Ok(println!(rt; "{sign}     {number:<8}  {characters:<5}  {dots}")?)
}

// The character of a code, and a blank for one that moves the line.
fn shown(code: u32) -> char {
    char::from_u32(code)
        .filter(|sign| !sign.is_control())
        .unwrap_or(' ')
}
