//! The certificate of a search.
ghost use Rattle.std.specs.Prelude.{◌≡◌, map, IfOk};
ghost use Rattle.none_certificates.specs.Texts.{certificate_text};
ghost use Rattle.certified_logs.specs.Written.{header_of, refuted_of};

use find_failures::{Asked, Reach, Refuted};
use log_walk::Bounds;
use memory_models::Model;
use none_certificates::{Header, write_header, write_refuted};
use std::alloc::{AllocError, Global};

/// The header of the certificate of a search that ruled out these runs.
pub fn header_of(model: Model, asked: Asked, reach: Reach) -> Header
    ensures { result ≡ header_of model asked reach }
{
    Header {
        model,
        bounds: Bounds {
            kind: asked.kind,
            most: asked.outcomes,
        },
        whole: matches!(reach, Reach::Every),
    }
}

/// The certificate with this header and these logs, in their order.
pub fn certificate(
    alloc: Global,
    header: Header,
    refuted: &[Refuted],
) -> Result<Vec<u8>, AllocError>
    ensures { IfOk result (λ text. text.items ≡ certificate_text (record { header = header; logs = map refuted_of refuted.now })) }
{
    let mut text = Vec::new(alloc);
    write_header(alloc, &mut text, header)?;
    for one in refuted {
        let log = &one.log;
        write_refuted(
            alloc,
            &mut text,
            log.failing_name(),
            log.threads(),
            &one.derivation,
        )?;
    }
    Ok(text)
}
