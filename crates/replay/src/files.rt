// The calls that write a graph's words to a file for another program.
ghost use Rattle.std.specs.Prelude.{◌≡◌, ◌++◌, length, take, replicate};
ghost use Rattle.stored.specs.Answers.{same};
ghost use Rattle.replay.specs.Files.{file_fields, macondo_reply, lxd_reply};

use flat::FlatFile;
use stored::{list_from, list_to, same_then, word_at};

// FORMAT L, L labels and the nodes; the name.
pub(crate) fn to_macondo(stored: &[u64], words: &[u32], name: &[u8]) -> bool
    ensures { result ≡ same stored.now (macondo_reply words.now name.now 4096 (replicate 4096 0)) }
{
    let mut work = [0u32; 4096];
    let mut file = [0u8; 4096];
    let count = word_at(words, 1) as usize;
    let rest = list_from(words, 2);
    let written = machirsun::machirsun_to_macondo(
        list_from(rest, count),
        list_to(rest, count),
        name,
        word_at(words, 0),
        &mut work,
        &mut file,
    );
    same_file(stored, written, &file)
}

// L T D, L labels, T code points of the title, D of the date, and the nodes.
pub(crate) fn to_lxd(stored: &[u64], words: &[u32]) -> bool
    ensures { result ≡ same stored.now (lxd_reply words.now 4096 (replicate 4096 0)) }
{
    let mut work = [0u32; 4096];
    let mut file = [0u8; 4096];
    let labels = list_from(words, 3);
    let label_count = word_at(words, 0) as usize;
    let title = list_from(labels, label_count);
    let title_length = word_at(words, 1) as usize;
    let date = list_from(title, title_length);
    let date_length = word_at(words, 2) as usize;
    let written = machirsun::machirsun_to_lxd(
        list_from(date, date_length),
        list_to(labels, label_count),
        list_to(title, title_length),
        list_to(date, date_length),
        &mut work,
        &mut file,
    );
    same_file(stored, written, &file)
}

fn same_file(stored: &[u64], written: FlatFile, file: &[u8]) -> bool
    ensures { result ≡ same stored.now (file_fields written ++ take written.written file.now) }
{
    let numbers = [
        u64::from(written.refusal),
        u64::from(written.arc),
        written.written as u64,
    ];
    same_then(stored, &numbers, list_to(file, written.written))
}
