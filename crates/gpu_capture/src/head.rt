// Recognizes a file by its first 8 bytes.
ghost use Rattle.std.specs.Prelude.{◌≡◌, ◌<◌, ◌≤◌, length, IfOk, IfErr, IfSome};
ghost use Rattle.gpu_capture.specs.Head.{first_difference, offset_of_difference, head_among};

/// Returns the index of the first element of `heads` that equals `bytes`. If there is none, returns the length of the
/// longest prefix of `bytes` that some element begins with, 0 to 7.
pub fn head_among(heads: &[[u8; 8]], bytes: &[u8; 8]) -> Result<usize, usize>
    ensures value { result ≡ head_among heads.now bytes.now }
    ensures number { IfOk result (λ number. number < length heads.now) }
    ensures offset { IfErr result (λ offset. offset < 8) }
{
    let mut furthest = 0;
    for number in 0..heads.len() {
        let offset = offset_of_difference(&heads[number], bytes);
        if offset == 8 {
            return Ok(number);
        }
        furthest = furthest.max(offset);
    }
    Err(furthest)
}

// Returns the length of the common prefix of both, 0 to 8.
fn offset_of_difference(head: &[u8; 8], bytes: &[u8; 8]) -> usize
    ensures value { result ≡ offset_of_difference head.now bytes.now }
    ensures within { result ≤ 8 }
{
    difference(head, bytes).unwrap_or(8)
}

// Returns the first offset at which both differ, or `None` if they are equal.
fn difference(head: &[u8; 8], bytes: &[u8; 8]) -> Option<usize>
    ensures offset { result ≡ first_difference head.now bytes.now }
    ensures within { IfSome result (λ offset. offset < 8) }
{
    head.iter().zip(bytes).position(|(a, b)| *a != *b)
}
