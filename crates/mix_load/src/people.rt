// The CSV text of many people.
ghost use Rattle.std.specs.Prelude.{◌≡◌, ◌++◌, IfOk, OnOk};
ghost use Rattle.std.specs.Fmt.{decimal};
ghost use Rattle.csv_wrap.specs.Csv.{IsFile};
ghost use Rattle.mix_load.specs.People.{people, people_columns, people_text, person, record_line};

use std::alloc::{AllocError, Global};

// Writes a number in decimal digits.
fn push_number(out: &mut Vec<u8>, number: u64) -> Result<(), AllocError>
    ensures { OnOk result (out.new.items ≡ out.old.items ++ decimal number) }
{
    let alloc = *out.allocator();
    let digits = number.to_string(alloc)?;
    out.extend_from_slice(digits.as_bytes())?;
    Ok(())
}

// Writes the line of a person.
fn push_person(out: &mut Vec<u8>, number: u32) -> Result<(), AllocError>
    ensures { OnOk result (out.new.items ≡ out.old.items ++ record_line (person number)) }
{
    let number = u64::from(number);
    push_number(out, number)?;
    out.extend_from_slice(b",n")?;
    push_number(out, number)?;
    out.push(b',')?;
    push_number(out, 10000 + number * 37 % 100)?;
    out.push(b'\n')?;
    Ok(())
}

/// The text of the CSV file of so many people, who are numbered from 0: a line of the columns id, name and zip, and a line for each
/// person, whose id is the number, whose name is `n` and the number, and whose zip is 10000 and the last two digits of 37 times the
/// number. It fails where memory runs out.
pub fn people_text(alloc: Global, count: u32) -> Result<Vec<u8>, AllocError>
    ensures text { IfOk result (λ text. text.items ≡ people_text count) }
    // The text is a CSV file of these columns and these rows.
    ensures file { IfOk result (λ text. IsFile text.items people_columns (people count)) }
{
    let mut text = Vec::new(alloc);
    text.extend_from_slice(b"id,name,zip\n")?;
    'people: for number in 0..count {
        push_person(&mut text, number)?;
    }
    Ok(text)
}
