// Texts put into a lent buffer, from a place on. Each answers the place after its text, and changes nothing where the text does not fit:
// then too the place is told, and no None, since it is the length that a caller needs.
ghost use Rattle.std.specs.Prelude.{◌≡◌, [], ◌∷◌, ◌++◌, ◌+◌, ◌≤◌, min, length};
ghost use Rattle.text.specs.Numbers.{decimal};
ghost use Rattle.text.specs.Promise.{largest_size, placed, Puts};

// A sum that stops at the largest size.
pub fn sum(a: usize, b: usize) -> usize
    ensures { result ≡ min (a + b) largest_size }
{
    a.saturating_add(b)
}

// The bytes of `text`.
pub fn put_bytes(text: &[u8], at: usize, out: &mut [u8]) -> usize
    ensures { Puts text.now at out.old result out.new }
{
    let next = sum(at, text.len());
    if next <= out.len() {
        out[at..next].copy_from_slice(text);
    }
    next
}

// How many decimal digits a number has. Most are small, and for those three tests take half the time of `ilog10`.
pub fn digits(n: usize) -> usize
    ensures is { result ≡ length (decimal n) }
    ensures bound { result ≤ 20 }
{
    if n < 10000 {
        return 1 + usize::from(10 <= n) + usize::from(100 <= n) + usize::from(1000 <= n);
    }
    n.ilog10() as usize + 1
}

// The digits into the bytes that they need, the last one first. By their places: the first is written apart, which no chain says plainer.
fn fill_digits(n: usize, out: &mut [u8])
    requires { length out.old ≡ length (decimal n) }
    ensures { out.new ≡ decimal n }
{
    let mut rest = n;
    for i in (1..out.len()).rev() {
        out[i] = b'0' + (rest % 10) as u8;
        rest /= 10;
    }
    out[0] = b'0' + rest as u8;
}

// A number's decimal digits.
pub fn put_number(n: usize, at: usize, out: &mut [u8]) -> usize
    ensures { Puts (decimal n) at out.old result out.new }
{
    let end = sum(at, digits(n));
    if end <= out.len() {
        fill_digits(n, &mut out[at..end]);
    }
    end
}

// A number and the byte after it.
pub fn put_ended(n: usize, byte: u8, at: usize, out: &mut [u8]) -> usize
    ensures { Puts (decimal n ++ (byte ∷ [])) at out.old result out.new }
{
    let end = sum(at, digits(n));
    let next = sum(end, 1);
    if next <= out.len() {
        fill_digits(n, &mut out[at..end]);
        out[end] = byte;
    }
    next
}
