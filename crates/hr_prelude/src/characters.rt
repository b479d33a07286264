/// The module Char: some of the Haskell 98 Report's library of that name, on ASCII.
pub const CHAR_TEXT: &str = r#"module Char where

ord :: Char -> Int
ord = ord

chr :: Int -> Char
chr = chr

isDigit, isSpace, isAlpha, isUpper, isLower :: Char -> Bool
isDigit c = ord '0' <= ord c && ord c <= ord '9'
isSpace ' ' = True
isSpace '\t' = True
isSpace '\n' = True
isSpace '\r' = True
isSpace '\f' = True
isSpace '\v' = True
isSpace _ = False
isAlpha c = isUpper c || isLower c
isUpper c = ord 'A' <= ord c && ord c <= ord 'Z'
isLower c = ord 'a' <= ord c && ord c <= ord 'z'

digitToInt :: Char -> Int
digitToInt c
  | isDigit c = ord c - ord '0'
  | ord 'a' <= ord c && ord c <= ord 'f' = ord c - ord 'a' + 10
  | ord 'A' <= ord c && ord c <= ord 'F' = ord c - ord 'A' + 10
  | otherwise = error "Char.digitToInt: not a digit"

intToDigit :: Int -> Char
intToDigit i
  | 0 <= i && i <= 9 = chr (ord '0' + i)
  | 10 <= i && i <= 15 = chr (ord 'a' + i - 10)
  | otherwise = error "Char.intToDigit: not a digit"
"#;
