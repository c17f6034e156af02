// Braille ASCII: one character for each cell.
ghost use Rattle.std.specs.Prelude.{◌≡◌};
ghost use Rattle.cells.specs.Cells.{byte_of, cell_of, Bijection};

// The characters of cells 0 to 63.
const CHARACTERS: [u8; 64] = *b" A1B'K2L@CIF/MSP\"E3H9O6R^DJG>NTQ,*5<-U8V.%[$+X!&;:4\\0Z7(_?W]#Y)=";

// The cells of the bytes 0x20 to 0x5F: the inverse, so that a byte's cell is found with no search.
const CELLS: [u8; 64] = [
    0, 46, 16, 60, 43, 41, 47, 4, 55, 62, 33, 44, 32, 36, 40, 12, 52, 2, 6, 18, 50, 34, 22, 54, 38,
    20, 49, 48, 35, 63, 28, 57, 8, 1, 3, 9, 25, 17, 11, 27, 19, 10, 26, 5, 7, 13, 29, 21, 15, 31,
    23, 14, 30, 37, 39, 58, 45, 61, 53, 42, 51, 59, 24, 56,
];

// The Braille ASCII byte of a cell; none for a number above 63.
pub fn byte_of(cell: u8) -> Option<u8>
    ensures { result ≡ byte_of cell }
{
    CHARACTERS.get(usize::from(cell)).copied()
}

// The cell of a Braille ASCII byte; none for any other byte. The two are a bijection.
pub fn cell_of(byte: u8) -> Option<u8>
    ensures value { result ≡ cell_of byte }
    ensures bijection { Bijection }
{
    // A byte below 0x20 wraps to a place past the end, so that one test bounds both ends.
    let place = usize::from(byte).wrapping_sub(0x20);
    CELLS.get(place).copied()
}
