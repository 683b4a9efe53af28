// What the programs' and entries' texts are made of: numbers in decimal, written into a lent output.
#![tactic(auto)]

ghost use Rattle.std.specs.Prelude.{◌≡◌, ◌+◌, ◌%◌, ◌≤◌, length};
ghost use Rattle.answers.specs.Answers.{decimal};
ghost use Rattle.field.specs.Writing.{written};
ghost use Rattle.text.specs.Digits.{Digits};

// How many digits a number has in decimal: one more than its logarithm to ten, and 0 has one.
pub fn digits(n: u32) -> usize
    ensures { Digits n result }
{
    n.checked_ilog10().unwrap_or(0) as usize + 1
}

// The last digit of a number.
fn last_digit(n: u32) -> u8
    ensures { result ≡ 0x30 + n % 10 }
{
    0x30 + (n % 10) as u8
}

// A number in decimal written at `at`, from its last digit to its first.
pub fn put_decimal(n: u32, out: &mut [u8], at: usize)
    requires { at + length (decimal 10 n) ≤ length out.old }
    ensures { out.new ≡ written at (decimal 10 n) out.old }
{
    let mut rest = n;
    for i in (0..digits(n)).rev() {
        out[at + i] = last_digit(rest);
        rest /= 10;
    }
}
