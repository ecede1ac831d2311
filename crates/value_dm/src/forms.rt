ghost use Rattle.std.specs.Prelude.{◌≡◌, ◌++◌, ◌^◌, ◌<◌, ◌≤◌, IfOk, OnOk, string_bytes};
ghost use Rattle.std.specs.Fmt.{sign_text};
ghost use Rattle.value_dm.specs.Digits.{fixed_digits, fraction_text, short_fraction_text};
ghost use Rattle.value_dm.specs.Lexical.{boolean_text, clock_text, date_text, date_time_text, decimal_text, time_text};

use crate::calendar::{Date, DateTime, Time};
use crate::decimal::Decimal;
use std::alloc::{AllocError, Global};

pub fn boolean_form(alloc: Global, truth: bool) -> Result<String, AllocError>
    ensures { IfOk result (λ form. string_bytes form ≡ boolean_text truth) }
{
    if truth {
        String::from_str(alloc, "true")
    } else {
        String::from_str(alloc, "false")
    }
}

pub fn decimal_form(alloc: Global, number: Decimal) -> Result<String, AllocError>
    ensures { IfOk result (λ form. string_bytes form ≡ decimal_text number) }
{
    let digits = number.coefficient.unsigned_abs();
    let unit = unit_of(number.scale);
    let mut form = String::new(alloc);
    push_sign(&mut form, number.coefficient < 0)?;
    form.push_str((digits / unit).to_string(alloc)?.as_str())?;
    push_fraction(&mut form, number.scale, digits % unit)?;
    Ok(form)
}

fn push_sign(form: &mut String, negative: bool) -> Result<(), AllocError>
    ensures { OnOk result (string_bytes form.new ≡ string_bytes form.old ++ sign_text negative) }
{
    if negative {
        form.push('-')?;
    }
    Ok(())
}

fn unit_of(scale: u8) -> u128
    requires { scale ≤ 38 }
    ensures value { result ≡ 10 ^ scale }
    ensures positive { 0 < result }
{
    10u128.pow(scale as u32)
}

pub fn date_form(alloc: Global, date: Date) -> Result<String, AllocError>
    ensures { IfOk result (λ form. string_bytes form ≡ date_text date) }
{
    let mut form = String::new(alloc);
    push_date(&mut form, date)?;
    Ok(form)
}

pub fn time_form(alloc: Global, time: Time) -> Result<String, AllocError>
    ensures { IfOk result (λ form. string_bytes form ≡ time_text time) }
{
    let mut form = String::new(alloc);
    push_time(&mut form, time)?;
    Ok(form)
}

pub fn date_time_form(alloc: Global, both: DateTime) -> Result<String, AllocError>
    ensures { IfOk result (λ form. string_bytes form ≡ date_time_text both) }
{
    let mut form = String::new(alloc);
    push_date(&mut form, both.date)?;
    form.push('T')?;
    push_time(&mut form, both.time)?;
    Ok(form)
}

fn push_date(form: &mut String, date: Date) -> Result<(), AllocError>
    ensures { OnOk result (string_bytes form.new ≡ string_bytes form.old ++ date_text date) }
{
    push_digits(form, 4, date.year as u128)?;
    form.push('-')?;
    push_digits(form, 2, date.month as u128)?;
    form.push('-')?;
    push_digits(form, 2, date.day as u128)
}

fn push_time(form: &mut String, time: Time) -> Result<(), AllocError>
    ensures { OnOk result (string_bytes form.new ≡ string_bytes form.old ++ time_text time) }
{
    push_clock(form, time)?;
    push_short_fraction(form, 9, time.nanosecond)
}

fn push_clock(form: &mut String, time: Time) -> Result<(), AllocError>
    ensures { OnOk result (string_bytes form.new ≡ string_bytes form.old ++ clock_text time) }
{
    push_digits(form, 2, time.hour as u128)?;
    form.push(':')?;
    push_digits(form, 2, time.minute as u128)?;
    form.push(':')?;
    push_digits(form, 2, time.second as u128)
}

// Appends a point and the fraction without the zeros at its end.
fn push_short_fraction(form: &mut String, count: u8, number: u32) -> Result<(), AllocError>
    ensures { OnOk result (string_bytes form.new ≡ string_bytes form.old ++ short_fraction_text count number) }
{
    if count == 0 {
        return Ok(());
    }
    if number % 10 == 0 {
        push_short_fraction(form, count - 1, number / 10)
    } else {
        push_fraction(form, count, number as u128)
    }
}

// Appends a point and the digits of a fraction, or nothing for no digits.
fn push_fraction(form: &mut String, count: u8, number: u128) -> Result<(), AllocError>
    ensures { OnOk result (string_bytes form.new ≡ string_bytes form.old ++ fraction_text count number) }
{
    if count == 0 {
        return Ok(());
    }
    form.push('.')?;
    push_digits(form, count, number)
}

// Appends the last digits of the number, so many as `count`.
fn push_digits(form: &mut String, count: u8, number: u128) -> Result<(), AllocError>
    ensures { OnOk result (string_bytes form.new ≡ string_bytes form.old ++ fixed_digits count number) }
{
    if count == 0 {
        return Ok(());
    }
    push_digits(form, count - 1, number / 10)?;
    form.push((b'0' + (number % 10) as u8) as char)?;
    Ok(())
}
