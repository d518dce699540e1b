// The texts that cases are written in.
//
// A line `=> LINE` ends a case: what stands before it has this refusal, or `a catalogue`. A line `@NAME` stands for a
// piece, and a line `*COUNT LINE` for so many lines, each `#` of which is the number of the line in five digits. Every
// other line stands for itself.
use qc_base::NoMemory;

const APP: &str = "[application.A]\nid = \"6f1c2f9e-0b7e-4c52-9d0a-1f2e3d4c5b01\"\n";

const COMPONENT: &str =
    "[application.A.component.C]\nclass = \"6f1c2f9e-0b7e-4c52-9d0a-1f2e3d4c5b02\"\n";

const IN_METHOD: &str = "[application.A.component.C.method.M]\n";

const METHOD: &str = "[application.A.component.C.method.M]\nparams = []\nscript = \"\"\n";

const IN_CLASS: &str = "[application.A.exception.X]\n";

const CLASS_FIELDS: &str = "class = \"6f1c2f9e-0b7e-4c52-9d0a-1f2e3d4c5b03\"\nfinal = \"\"\n";

const TILL: &str = "[resource.till]\nmode = \"early\"\nphases = 7\nrows = { drawer = 100 }\n";

fn put(text: &mut Vec<u8>, piece: &str) -> Result<(), NoMemory> {
    text.extend_from_slice(piece.as_bytes())
        .map_err(|_| NoMemory)
}

fn put_small(text: &mut Vec<u8>) -> Result<(), NoMemory> {
    put(text, APP)?;
    put(text, COMPONENT)?;
    put(text, METHOD)
}

fn put_class(text: &mut Vec<u8>) -> Result<(), NoMemory> {
    put(text, IN_CLASS)?;
    put(text, CLASS_FIELDS)?;
    put(text, "method = {}\n")
}

fn put_piece(text: &mut Vec<u8>, name: &str) -> Result<(), NoMemory> {
    match name {
        "small" => put_small(text),
        "app" => put(text, APP),
        "component" => put(text, COMPONENT),
        "in_method" => put(text, IN_METHOD),
        "method" => put(text, METHOD),
        "in_class" => put(text, IN_CLASS),
        "class_fields" => put(text, CLASS_FIELDS),
        "class" => put_class(text),
        "in_till" => put(text, "[resource.till]\n"),
        "till" => put(text, TILL),
        "bom" => put(text, "\u{feff}"),
        _ => put(text, "no such piece"),
    }
}

fn put_digits(text: &mut Vec<u8>, number: u32) -> Result<(), NoMemory> {
    for unit in [10_000, 1_000, 100, 10, 1] {
        let digit = number / unit % 10;
        text.push(b'0' + digit as u8).map_err(|_| NoMemory)?;
    }
    Ok(())
}

fn put_numbered(text: &mut Vec<u8>, line: &str, number: u32) -> Result<(), NoMemory> {
    for byte in line.as_bytes() {
        if *byte == b'#' {
            put_digits(text, number)?;
        } else {
            text.push(*byte).map_err(|_| NoMemory)?;
        }
    }
    text.push(10).map_err(|_| NoMemory)
}

fn put_repeated(text: &mut Vec<u8>, count: &str, line: &str) -> Result<(), NoMemory> {
    let count = count.parse::<u32>().unwrap_or(0);
    for number in 0..count {
        put_numbered(text, line, number)?;
    }
    Ok(())
}

/// Puts what a line of a case stands for behind the text.
pub fn put_line(text: &mut Vec<u8>, line: &str) -> Result<(), NoMemory> {
    if let Some(name) = line.strip_prefix('@') {
        return put_piece(text, name);
    }
    if let Some(repeated) = line.strip_prefix('*') {
        let (count, line) = repeated.split_once(' ').unwrap_or((repeated, ""));
        return put_repeated(text, count, line);
    }
    put(text, line)?;
    put(text, "\n")
}
