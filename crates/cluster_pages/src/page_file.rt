// The file of a page.
use std::fs;
use std::rt::Files;

/// Writes a page to the file at `path`; prints why if that fails. Returns whether it succeeded.
pub fn write_page<R: Eprint + Files>(rt: &R, program: &str, path: &str, page: String) -> bool {
    match fs::write(rt, path, page) {
        Ok(()) => true,
        Err(error) => {
            let _ = rt.eprintln(format_args!(
                "{program}: the page cannot be written to {path}: {error}"
            ));
            false
        }
    }
}
