//! What the bytes of one field spell.
ghost use Rattle.std.specs.Prelude.{◌≡◌, ◌≤◌, ◌<◌, ◌^◌, length, pos, true, Some, None};
ghost use Rattle.std.specs.Prelude.{if◌then◌else◌};
ghost use Rattle.std.specs.Option.{option_copied};
ghost use Rattle.std.specs.Result.{result_ok};
ghost use Rattle.std.specs.Str.Parse.{digits_value};
ghost use Rattle.gq_base.specs.Words.{text_of};
ghost use Rattle.gq_fields.specs.Fields.{flag_of, int_of, is_numeral};

/// The field is not of its kind.
#[derive(Clone, Copy, Debug, PartialEq, Eq)]
pub struct BadField;

/// So many digits spell a number of 64 signed bits, whatever they are.
const FEW_DIGITS: usize = 18;

/// The integer that a field spells: an optional `-` and one or more digits, within 64 signed bits.
pub fn read_int(field: &[u8]) -> Result<i64, BadField>
    ensures { result_ok result ≡ int_of field.now }
{
    if field.len() > FEW_DIGITS {
        return read_long(field);
    }
    if field.starts_with(b"-") {
        match read_digits(&field[1..]) {
            Some(number) => Ok(-number),
            None => Err(BadField),
        }
    } else {
        match read_digits(field) {
            Some(number) => Ok(number),
            None => Err(BadField),
        }
    }
}

// The number that a few digits spell, where there are some, and nothing else.
fn read_digits(digits: &[u8]) -> Option<i64>
    requires { length digits.now ≤ FEW_DIGITS }
    ensures value { result ≡ if is_numeral digits.now
        then Some (pos (digits_value 10 digits.now)) else None }
    ensures few { is_numeral digits.now ≡ true → digits_value 10 digits.now < 2 ^ 63 }
{
    if digits.is_empty() {
        return None;
    }
    let mut number = 0u64;
    for digit in digits {
        if !digit.is_ascii_digit() {
            return None;
        }
        number = 10 * number + u64::from(*digit - b'0');
    }
    Some(number as i64)
}

// The integer that a field of any length spells.
fn read_long(field: &[u8]) -> Result<i64, BadField>
    ensures { result_ok result ≡ int_of field.now }
{
    // `parse` would take a plus sign too.
    if field.starts_with(b"+") {
        return Err(BadField);
    }
    let Ok(text) = read_text(field) else {
        return Err(BadField);
    };
    match text.parse::<i64>() {
        Ok(value) => Ok(value),
        Err(_) => Err(BadField),
    }
}

/// The boolean that a field spells: `true` or `false`, in any ASCII case.
pub fn read_flag(field: &[u8]) -> Result<bool, BadField>
    ensures { result_ok result ≡ flag_of field.now }
{
    if field.eq_ignore_ascii_case(b"true") {
        Ok(true)
    } else if field.eq_ignore_ascii_case(b"false") {
        Ok(false)
    } else {
        Err(BadField)
    }
}

/// The text of a field, which is UTF-8.
pub fn read_text(field: &[u8]) -> Result<&str, BadField>
    ensures { option_copied (result_ok result) ≡ text_of field.now }
{
    match gq_base::read_text(field) {
        Some(text) => Ok(text),
        None => Err(BadField),
    }
}
