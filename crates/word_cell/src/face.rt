// A face of 16 rows of 16 cells, transposed as an array by value.
ghost use Rattle.std.specs.Prelude.{◌≡◌, ◌+◌, ◌≤◌, ◌<◌, length};
ghost use Rattle.word_rules.specs.Face.{row_at, face_at, column_of, transposed, with_rows, face_transposed, CellsTransposed};

use bits::copy::copy_words;
use std::array::from_fn;

// The 16 cells from place `at` on.
fn row_at(s: &[u32], at: usize) -> [u32; 16]
    requires { at + 16 ≤ length s.now }
    ensures { result ≡ row_at at s.now }
{
    from_fn(|c| s[at + c])
}

// The 16 rows from place `at` on.
fn face_at(s: &[u32], at: usize) -> [[u32; 16]; 16]
    requires { at + 256 ≤ length s.now }
    ensures { result ≡ face_at at s.now }
{
    let mut face = [[0; 16]; 16];
    for r in 0..16 {
        face[r] = row_at(s, at + r * 16);
    }
    face
}

// Column c of a face.
fn column_of(face: &[[u32; 16]; 16], c: usize) -> [u32; 16]
    requires { c < 16 }
    ensures { result ≡ column_of face.now c }
{
    from_fn(|r| face[r][c])
}

// The rows of the new face are the columns of the old.
fn transpose(face: [[u32; 16]; 16]) -> [[u32; 16]; 16]
    ensures { result ≡ transposed face }
{
    let mut turned = [[0; 16]; 16];
    for r in 0..16 {
        turned[r] = column_of(&face, r);
    }
    turned
}

// The rows of a face written from place `at` on.
fn write_face(s: &mut [u32], at: usize, face: [[u32; 16]; 16])
    requires { at + 256 ≤ length s.old }
    ensures { s.new ≡ with_rows at face s.old }
{
    for (r, row) in face.iter().enumerate() {
        copy_words(row, s, 0, at + r * 16, 16);
    }
}

// The face at place `at` read as an array by value, transposed and written back. Internal: it lies within the store.
#[tactic(auto, using(word_rules::proofs::FaceLaws::cells_transposed), unfolding(word_rules::specs::Face::face_transposed))]
pub fn transpose_face(s: &mut [u32], at: usize)
    requires { at + 256 ≤ length s.old }
    ensures whole { s.new ≡ face_transposed at s.old }
    ensures cells { CellsTransposed at s.old s.new }
{
    write_face(s, at, transpose(face_at(s, at)));
}
