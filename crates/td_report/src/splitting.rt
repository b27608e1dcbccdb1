//! The lines of rows, which several threads share.
ghost use Rattle.std.specs.Prelude.{◌≡◌, ◌≤◌, ◌++◌, IfOk, OnOk, string_bytes};
ghost use Rattle.std.specs.List.{flat_map};
ghost use Rattle.td_report.specs.inner.LinesText.{lines_text};

use crate::item::Item;
use crate::lines::{Lines, lines_of};
use crate::shown::Shown;
use rayon::prelude::*;
use std::alloc::{AllocError, Global};
use std::thread::Threads;

/// The lines of chunks of `size` rows, each made by one thread.
#[derive(Drop)]
pub struct Chunks<'t, T: Threads + Sync> {
    pub rt: &'t T,
    pub shown: Shown,
    pub size: usize,
    ghost some: { 1 ≤ size },
}

impl<T: Threads + Sync> Lines for Chunks<'_, T> {
    ghost use Rattle.std.specs.Thread.{IsSync};

    ghost ready = { λ chunks. IsSync T.row };

    ghost shown = { λ chunks. chunks.shown };

    fn of(&self, alloc: Global, items: &[Item<'_>]) -> Result<String, AllocError> {
        split_lines(self.rt, alloc, items, self.shown, self.size)
    }
}

// The lines of chunks of the rows, in order.
fn chunk_lines(
    rt: &(impl Threads + Sync),
    alloc: Global,
    items: &[Item<'_>],
    shown: Shown,
    chunk: usize,
) -> Result<Vec<String>, AllocError>
    requires { 1 ≤ chunk }
    ensures { IfOk result
        (λ texts. flat_map (λ t. string_bytes t) texts.items ≡ lines_text shown items.now) }
{
    items
        .par_chunks(chunk)
        .with_min_len(1)
        .map(
            |mine: &[Item<'_>]| -> Result<String, AllocError>
                ensures { IfOk result (λ text. string_bytes text ≡ lines_text shown mine.now) }
            { lines_of(alloc, mine, shown) },
        )
        .collect::<Result<Vec<String>, AllocError>>(rt, alloc)?
}

// Appends texts one after the other.
fn put_texts(out: &mut String, texts: &[String]) -> Result<(), AllocError>
    ensures { OnOk result (string_bytes out.new
        ≡ string_bytes out.old ++ flat_map (λ t. string_bytes t) texts.now) }
{
    for text in texts {
        out.push_str(text.as_str())?;
    }
    Ok(())
}

// The lines of the rows, made chunk by chunk.
fn split_lines(
    rt: &(impl Threads + Sync),
    alloc: Global,
    items: &[Item<'_>],
    shown: Shown,
    chunk: usize,
) -> Result<String, AllocError>
    requires { 1 ≤ chunk }
    ensures { IfOk result (λ text. string_bytes text ≡ lines_text shown items.now) }
{
    let texts = chunk_lines(rt, alloc, items, shown, chunk)?;
    let mut lines = String::new(alloc);
    put_texts(&mut lines, &texts)?;
    Ok(lines)
}
