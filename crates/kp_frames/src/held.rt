ghost use Rattle.std.specs.Prelude.{◌≡◌, ◌==◌, ◌+◌, ◌<◌, ◌≤◌, ◌^◌, ℕ, true, false, not, ◌&&◌, List, [], ◌∷◌, ◌++◌, length, get_or, take, drop, min, IfOk, OnOk, IfSome, None};
ghost use Rattle.std.specs.List.{list_any, list_all};
ghost use Rattle.kp_frames.specs.Frames.{is_white, start, begins_bracketed, begins_malformed};
ghost use Rattle.kp_frames.specs.Held.{frames_of, CutsLeaving, IsHeld, Takes};

use crate::nest::{Nest, first_close, is_opening};
use std::alloc::{AllocError, Global};
use std::mem;

/// The rest of a stream, and the nest at its end where it is bracketed.
#[derive(Drop)]
pub struct Held {
    pub rest: Vec<u8>,
    pub nest: Nest,
}

impl Held {
    /// Nothing.
    pub fn new(alloc: Global) -> Held
        ensures rest { result.rest.items ≡ [] }
        ensures nest { result.nest ≡ start }
    {
        Held {
            rest: Vec::new(alloc),
            nest: Nest::start(),
        }
    }

    /// Adds the last bytes of a frame, and gives the frame away.
    fn end_frame(
        &mut self,
        alloc: Global,
        last: &[u8],
        frames: &mut Vec<Vec<u8>>,
    ) -> Result<(), AllocError>
        ensures frames { OnOk result (frames_of frames.new.items ≡ frames_of frames.old.items ++ (self.old.rest.items ++ last.now) ∷ []) }
        ensures rest { OnOk result (self.new.rest.items ≡ []) }
        ensures nest { OnOk result (self.new.nest ≡ start) }
    {
        self.rest.extend_from_slice(last)?;
        let frame = mem::replace(&mut self.rest, Vec::new(alloc));
        self.nest = Nest::start();
        frames.push(frame)?;
        Ok(())
    }

    /// Takes of a bracketed text what there is of it, up to its end.
    fn take_bracketed(
        &mut self,
        alloc: Global,
        limit: usize,
        window: &[u8],
        frames: &mut Vec<Vec<u8>>,
    ) -> Result<usize, AllocError>
        requires held { IsHeld limit self.old.rest.items self.old.nest }
        requires some { 0 < length window.now }
        requires within { length self.old.rest.items + length window.now ≤ limit }
        requires begins { begins_bracketed (self.old.rest.items ++ window.now) ≡ true }
        ensures held { OnOk result (IsHeld limit self.new.rest.items self.new.nest) }
        ensures takes { IfOk result (λ count. Takes limit self.old.rest.items window.now count (frames_of frames.old.items) (frames_of frames.new.items) self.new.rest.items) }
    {
        let mut nest = self.nest;
        match first_close(&mut nest, window) {
            None => {
                self.rest.extend_from_slice(window)?;
                self.nest = nest;
                Ok(window.len())
            }
            Some(count) => {
                self.end_frame(alloc, &window[..count], frames)?;
                Ok(count)
            }
        }
    }

    /// Takes of a line what there is of it, and its line feed.
    fn take_line(
        &mut self,
        alloc: Global,
        limit: usize,
        window: &[u8],
        frames: &mut Vec<Vec<u8>>,
    ) -> Result<usize, AllocError>
        requires held { IsHeld limit self.old.rest.items self.old.nest }
        requires some { 0 < length window.now }
        requires within { length self.old.rest.items + length window.now ≤ limit }
        requires begins { begins_malformed (self.old.rest.items ++ window.now) ≡ true }
        ensures held { OnOk result (IsHeld limit self.new.rest.items self.new.nest) }
        ensures takes { IfOk result (λ count. Takes limit self.old.rest.items window.now count (frames_of frames.old.items) (frames_of frames.new.items) self.new.rest.items) }
    {
        match line_length(window) {
            None => {
                self.rest.extend_from_slice(window)?;
                Ok(window.len())
            }
            Some(count) => {
                self.end_frame(alloc, &window[..count], frames)?;
                Ok(count + 1)
            }
        }
    }

    /// Takes the next bytes of a piece: white space, or what there is of a frame up to its end or to the limit.
    fn take_next(
        &mut self,
        alloc: Global,
        limit: usize,
        piece: &[u8],
        frames: &mut Vec<Vec<u8>>,
    ) -> Result<usize, AllocError>
        requires held { IsHeld limit self.old.rest.items self.old.nest }
        requires room { length self.old.rest.items < limit }
        requires some { 0 < length piece.now }
        ensures held { OnOk result (IsHeld limit self.new.rest.items self.new.nest) }
        ensures takes { IfOk result (λ count. Takes limit self.old.rest.items piece.now count (frames_of frames.old.items) (frames_of frames.new.items) self.new.rest.items) }
    {
        if self.rest.is_empty() && is_white_byte(piece[0]) {
            return Ok(white_length(piece));
        }
        let window = front_of(piece, limit - self.rest.len());
        if self.is_bracketed(window) {
            self.take_bracketed(alloc, limit, window, frames)
        } else {
            self.take_line(alloc, limit, window, frames)
        }
    }

    /// Whether the rest and the bytes behind it begin with a bracket.
    fn is_bracketed(&self, window: &[u8]) -> bool
        requires { 0 < length window.now }
        ensures { result ≡ begins_bracketed (self.now.rest.items ++ window.now) }
    {
        if self.rest.is_empty() {
            return is_opening(window[0]);
        }
        is_opening(self.rest[0])
    }

    /// Takes a whole piece, or up to where the rest is full, and gives the frames that it ends.
    pub fn take_piece(
        &mut self,
        alloc: Global,
        limit: usize,
        piece: &[u8],
    ) -> Result<Vec<Vec<u8>>, AllocError>
        requires { IsHeld limit self.old.rest.items self.old.nest }
        ensures held { OnOk result (IsHeld limit self.new.rest.items self.new.nest) }
        ensures cut { let rest' = self.old.rest.items in let rest'' = self.new.rest.items in IfOk result (λ ended. (bytes : List ℕ) → (frames : List (List ℕ)) → CutsLeaving limit bytes frames rest' → CutsLeaving limit (bytes ++ piece.now) (frames ++ frames_of ended.items) rest'') }
    {
        let mut frames = Vec::new(alloc);
        let mut at = 0;
        while at < piece.len() && self.rest.len() < limit {
            at += self.take_next(alloc, limit, &piece[at..], &mut frames)?;
        }
        Ok(frames)
    }
}

/// Whether a byte is white space between frames.
fn is_white_byte(byte: u8) -> bool
    ensures { result ≡ is_white byte }
{
    byte == b' ' || byte == b'\t' || byte == b'\r' || byte == b'\n'
}

/// How many bytes of white space a text begins with.
fn white_length(bytes: &[u8]) -> usize
    ensures within { result ≤ length bytes.now }
    ensures some { 0 < length bytes.now → is_white (get_or bytes.now 0 0) ≡ true → 0 < result }
    ensures white { list_all is_white (take result bytes.now) ≡ true }
{
    for at in 0..bytes.len() {
        if !is_white_byte(bytes[at]) {
            return at;
        }
    }
    bytes.len()
}

/// How many bytes there are before the first line feed.
fn line_length(bytes: &[u8]) -> Option<usize>
    ensures none { result ≡ None → list_any (λ b. b == 10) bytes.now ≡ false }
    ensures before { IfSome result (λ k. list_any (λ b. b == 10) (take k bytes.now) ≡ false) }
    ensures at { IfSome result (λ k. (k < length bytes.now) × (take (k + 1) bytes.now ≡ take k bytes.now ++ 10 ∷ [])) }
{
    for at in 0..bytes.len() {
        if bytes[at] == b'\n' {
            return Some(at);
        }
    }
    None
}

/// The first bytes of a text, at most so many.
fn front_of(bytes: &[u8], most: usize) -> &[u8]
    ensures { result.now ≡ take (min most (length bytes.now)) bytes.now }
{
    if most < bytes.len() {
        &bytes[..most]
    } else {
        bytes
    }
}
