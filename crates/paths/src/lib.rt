// The names of the files that the command writes, and a name as it is shown. Each is put at the start of out, and its length given. (FORMAT 14)
// The buffer is lent, with its length beside it, since nothing here uses the heap and the clauses of each function say what every byte of it becomes.
// For a name that is too long too: the clauses `is` of `temporary` and `followed` say 0, and of `subject` the length of "kw", so no function answers an Option.
#![tactic(auto, using(put::proofs::PutLaw::sets_append), unfolding(model::specs::Programs::text))]

ghost use Rattle.std.specs.Prelude.{◌≡◌, ◌++◌, ◌+◌, ◌≤◌, length};
ghost use Rattle.std.proofs.lemmas.List.Edits.{sets};
ghost use Rattle.io.specs.Counts.{IsPrefixLen};
ghost use Rattle.put.specs.Put.{Put};
ghost use Rattle.paths.specs.Paths.{folder_length, folder, temporary_name, rooted, followed_name, subject_text};

use put::put_bytes;

// The system takes no longer name.
pub const LONGEST_NAME: usize = 4096;

// How many bytes of a path name its folder, the last slash among them.
pub fn folder_length(path: &[u8]) -> usize
    ensures is { result ≡ folder_length path.now }
    ensures fits { IsPrefixLen result path.now }
{
    match path.iter().rposition(|byte| *byte == b'/') {
        Some(last) => last + 1,
        None => 0,
    }
}

// A name in path's folder.
fn put_beside(out: &mut [u8], path: &[u8], name: &[u8]) -> usize
    requires { length path.now + length name.now ≤ length out.old }
    ensures { Put out.old 0 (folder path.now ++ name.now) result out.new }
{
    let n = folder_length(path);
    let at = put_bytes(out, 0, &path[..n]);
    put_bytes(out, at, name)
}

// A name in path's folder, whose last six bytes the system replaces.
pub fn temporary(path: &[u8], out: &mut [u8; 8192]) -> usize
    ensures is { result ≡ length (temporary_name path.now) }
    ensures leaves { out.new ≡ sets out.old 0 (temporary_name path.now) }
    ensures fits { IsPrefixLen result out.new }
{
    if path.len() > LONGEST_NAME {
        return 0;
    }
    put_beside(out, path, b".kw-XXXXXX")
}

fn is_rooted(link: &[u8]) -> bool
    ensures { result ≡ rooted link.now }
{
    link.first() == Some(&b'/')
}

// Where a link leads that stands at path and has this text.
pub fn followed(path: &[u8], link: &[u8], out: &mut [u8; 8192]) -> usize
    ensures is { result ≡ length (followed_name path.now link.now) }
    ensures leaves { out.new ≡ sets out.old 0 (followed_name path.now link.now) }
    ensures fits { IsPrefixLen result out.new }
{
    if path.len() > LONGEST_NAME {
        return 0;
    }
    if link.len() > LONGEST_NAME {
        return 0;
    }
    if is_rooted(link) {
        return put_bytes(out, 0, link);
    }
    put_beside(out, path, link)
}

// A name as the start of a line on standard error, which the system's reason follows.
pub fn subject(name: &[u8], out: &mut [u8; 4352]) -> usize
    ensures is { result ≡ length (subject_text name.now) }
    ensures leaves { out.new ≡ sets out.old 0 (subject_text name.now) }
    ensures fits { IsPrefixLen result out.new }
{
    if name.len() > LONGEST_NAME {
        return put_bytes(out, 0, b"kw");
    }
    let at = put_bytes(out, 0, b"kw: ");
    put_bytes(out, at, name)
}
