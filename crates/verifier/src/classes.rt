// The verifier over a class file: its methods in order.
ghost use Rattle.std.specs.Prelude.{◌≡◌, ◌<◌};
ghost use Rattle.classfile.specs.Reading.{file_version, class_name, method_count, method_in};
ghost use Rattle.rows.specs.Posting.{noted};
ghost use Rattle.verifier.specs.Trace.{answered, posting, trace_of, class_trace};

use crate::methods::verify_method;
use crate::notes::Rejected;

// Method j of the file: its code and its maps are handed over as parts of the bytes.
fn verify_numbered(
    bytes: &[u8],
    j: u8,
    loader: u8,
    subtypes: &mut [u16],
    count: u16,
) -> Result<u16, Rejected>
    requires { j < method_count bytes.now }
    ensures { answered result subtypes.new ≡ posting loader (trace_of (file_version bytes.now) (class_name bytes.now) (method_in bytes.now j)) (noted subtypes.old count) }
{
    let Some(place) = classfile::method_place(bytes, j) else {
        return Err(Rejected { count });
    };
    let version = classfile::version(bytes);
    let own = classfile::class_name(bytes);
    let s = classfile::method_signature(bytes, place);
    verify_method(
        version,
        classfile::code(bytes, place),
        classfile::method_maps(bytes, place),
        own,
        s,
        loader,
        subtypes,
        count,
    )
}

// All methods of a class file: how many rows the table has with their notes. They are posted under the loader, behind the table's rows. The file's own rules are for others to check.
pub fn verify_class(
    bytes: &[u8],
    loader: u8,
    subtypes: &mut [u16],
    count: u16,
) -> Result<u16, Rejected>
    ensures { answered result subtypes.new ≡ posting loader (class_trace bytes.now) (noted subtypes.old count) }
{
    let mut total = count;
    for j in 0..classfile::method_count(bytes) {
        total = verify_numbered(bytes, j, loader, subtypes, total)?;
    }
    Ok(total)
}
