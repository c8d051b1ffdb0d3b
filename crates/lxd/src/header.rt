// The file's first 64 bytes: two numbers, title, date, and the words' number.
ghost use Rattle.std.specs.Prelude.{◌≡◌, map, ◌+◌, ◌≤◌, length, get_or};
ghost use Rattle.std.proofs.lemmas.List.Edits.{sets};
ghost use Rattle.windows1252.specs.Windows1252.{byte_written};
ghost use Rattle.lxd_file.specs.File.{field, header};

use crate::Texts;
use endian::write_le_u32;
use windows1252::byte_of;

// The byte of a text at place i, 0 past its end.
fn text_byte(text: &[u32], i: usize) -> u8
    ensures { result ≡ get_or (map byte_written text.now) i 0 }
{
    match text.get(i) {
        Some(c) => byte_of(*c),
        None => 0,
    }
}

// Writes a text into the `size` bytes from `from` on, which must be there, with zeros after it.
fn write_text(file: &mut [u8], from: usize, size: usize, text: &[u32])
    requires { from + size ≤ length file.old }
    ensures { file.new ≡ sets file.old from (field size text.now) }
{
    for i in 0..size {
        file[from + i] = text_byte(text, i);
    }
}

// Writes the header of a file of so many nodes and words; its 64 bytes must be there.
pub(crate) fn write_header(file: &mut [u8], nodes: u32, texts: Texts<'_>, words: u32)
    requires { 64 ≤ length file.old }
    ensures { file.new ≡ sets file.old 0 (header nodes texts.entry.title.now texts.entry.date.now words) }
{
    write_le_u32(file, 0, 64);
    write_le_u32(file, 4, nodes);
    write_text(file, 8, 32, texts.title);
    write_text(file, 40, 20, texts.date);
    write_le_u32(file, 60, words);
}
