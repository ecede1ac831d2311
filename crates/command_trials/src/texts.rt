use std::alloc::Global;

// What stands for a namespace behind `<`, and the namespace behind `<`.
const PREFIXES: [(&str, &str); 5] = [
    ("~", "<http://foo.example/DB/"),
    ("rdf:", "<http://www.w3.org/1999/02/22-rdf-syntax-ns#"),
    ("rdfs:", "<http://www.w3.org/2000/01/rdf-schema#"),
    ("owl:", "<http://www.w3.org/2002/07/owl#"),
    ("xsd:", "<http://www.w3.org/2001/XMLSchema#"),
];

fn push_both(whole: &mut Vec<u8>, first: &[u8], second: &str) -> Option<()> {
    whole.extend_from_slice(first).ok()?;
    whole.extend_from_slice(second.as_bytes()).ok()
}

// What stands behind `<`, with a prefix as its namespace.
fn push_iri(whole: &mut Vec<u8>, part: &str) -> Option<()> {
    for (prefix, namespace) in PREFIXES {
        if let Some(rest) = part.strip_prefix(prefix) {
            return push_both(whole, namespace.as_bytes(), rest);
        }
    }
    push_both(whole, b"<", part)
}

// The bytes of hexadecimal digits, two a byte, none of them a small letter, up to `>`, and what stands behind.
fn marked_bytes(alloc: Global, part: &str) -> Option<(Vec<u8>, &str)> {
    let (digits, rest) = part.split_once('>')?;
    if digits.len() == 0 || digits.bytes().any(|digit| digit.is_ascii_lowercase()) {
        return None;
    }
    Some((hex::decode(alloc, digits).ok()?, rest))
}

fn push_with_digits(whole: &mut Vec<u8>, text: &str, digits: &[u8]) -> Option<()> {
    for (place, part) in text.split('@').enumerate() {
        if place > 0 {
            whole.extend_from_slice(digits).ok()?;
        }
        whole.extend_from_slice(part.as_bytes()).ok()?;
    }
    Some(())
}

fn push_numbered(alloc: Global, whole: &mut Vec<u8>, text: &str, count: u64) -> Option<()> {
    for number in 0..count {
        let digits = format!(in alloc; "{number}").ok()?;
        push_with_digits(whole, text, digits.as_bytes())?;
    }
    Some(())
}

// Whether the text begins with a number, `*`, and what is to be repeated so often, up to `>`, which is pushed with the rest.
fn pushes_repeated(alloc: Global, whole: &mut Vec<u8>, part: &str) -> Option<bool> {
    let Some((number, text)) = part.split_once('*') else {
        return Some(false);
    };
    let Ok(count) = number.parse::<u64>() else {
        return Some(false);
    };
    let (text, rest) = text.split_once('>')?;
    push_numbered(alloc, whole, text, count)?;
    whole.extend_from_slice(rest.as_bytes()).ok()?;
    Some(true)
}

fn push_part(alloc: Global, whole: &mut Vec<u8>, part: &str) -> Option<()> {
    if pushes_repeated(alloc, whole, part)? {
        return Some(());
    }
    match marked_bytes(alloc, part) {
        Some((bytes, rest)) => push_both(whole, bytes.as_slice(), rest),
        None => push_iri(whole, part),
    }
}

/// The bytes that a text of a case stands for. In it `<~` stands for `<http://foo.example/DB/`, `<rdf:`, `<rdfs:`, `<owl:` and `<xsd:`
/// for their namespaces behind `<`, `<C3A9>` for the two bytes C3 and A9, and `<3*ab@>` for `ab0ab1ab2`. None for want of memory.
pub fn bytes_of(alloc: Global, text: &str) -> Option<Vec<u8>> {
    let mut whole = Vec::new(alloc);
    for (place, part) in text.split('<').enumerate() {
        if place == 0 {
            whole.extend_from_slice(part.as_bytes()).ok()?;
        } else {
            push_part(alloc, &mut whole, part)?;
        }
    }
    Some(whole)
}
