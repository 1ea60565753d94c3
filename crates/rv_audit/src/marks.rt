//! The mark between a script and its transcript.
ghost use Rattle.std.specs.Prelude.{◌≡◌, ◌||◌, bytes_eq, codes, option_map};
ghost use Rattle.rv_audit.specs.Marks.{is_mark, parted, parts_by};

use rv_text::cuts::cut_at;

/// Whether a line, without its end LF, is the mark; before the end may stand a CR.
fn is_mark(line: &[u8]) -> bool
    ensures { result ≡ is_mark line.now }
{
    line == b"====".as_slice() || line == b"====\r".as_slice()
}

/// Whether what stands behind the last line feed is the mark.
fn is_last_mark(line: &[u8]) -> bool
    ensures { result ≡ bytes_eq line.now (codes "====") }
{
    line == b"====".as_slice()
}

/// What stands before and behind the first line that is exactly `====`; None where there is none.
pub fn part(input: &[u8]) -> Option<(&[u8], &[u8])>
    ensures { option_map parts_by result ≡ parted input.now }
{
    let mut passed = 0;
    let mut left = input;
    'lines: loop {
        let (line, more) = cut_at(b'\n', left);
        match more {
            Some(behind) => {
                if is_mark(line) {
                    return Some((&input[..passed], behind));
                }
                passed += line.len() + 1;
                left = behind;
            }
            None => {
                if is_last_mark(left) {
                    return Some((&input[..passed], &left[left.len()..]));
                }
                return None;
            }
        }
    }
}
