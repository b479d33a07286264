/// The module Prelude: the Haskell 98 Report, chapter 8, without classes. A primitive has its signature and is
/// bound to itself. Where the Report's function is of a class, this one is of `Int`.
pub const PRELUDE_TEXT: &str = r#"module Prelude where

infixr 9  .
infixl 9  !!
infixr 8  ^
infixl 7  *, `quot`, `rem`, `div`, `mod`
infixl 6  +, -
infixr 5  ++
infix  4  ==, /=, <, <=, >, >=, `elem`, `notElem`
infixr 3  &&
infixr 2  ||
infixr 0  $, $!, `seq`

data Bool = False | True

data Ordering = LT | EQ | GT

data Maybe a = Nothing | Just a

data Either a b = Left a | Right b

type String = [Char]

-- Integers of 64 bits, which wrap.

(+), (-), (*), quot, rem, div, mod, max, min :: Int -> Int -> Int
(+) = (+)
(-) = (-)
(*) = (*)
quot = quot
rem = rem
div = div
mod = mod
max = max
min = min

quotRem, divMod :: Int -> Int -> (Int, Int)
quotRem = quotRem
divMod = divMod

negate, abs, signum, succ, pred :: Int -> Int
negate = negate
abs = abs
signum = signum
succ = succ
pred = pred

minBound, maxBound :: Int
minBound = minBound
maxBound = maxBound

(==), (/=), (<), (<=), (>), (>=) :: Int -> Int -> Bool
(==) = (==)
(/=) = (/=)
(<) = (<)
(<=) = (<=)
(>) = (>)
(>=) = (>=)

compare :: Int -> Int -> Ordering
compare = compare

show :: Int -> String
show = show

subtract :: Int -> Int -> Int
subtract = flip (-)

even, odd :: Int -> Bool
even n = n `rem` 2 == 0
odd n = not (even n)

gcd :: Int -> Int -> Int
gcd 0 0 = error "Prelude.gcd: gcd 0 0 is undefined"
gcd x y = gcd' (abs x) (abs y)
  where
    gcd' m 0 = m
    gcd' m n = gcd' n (m `rem` n)

lcm :: Int -> Int -> Int
lcm _ 0 = 0
lcm 0 _ = 0
lcm x y = abs ((x `quot` gcd x y) * y)

(^) :: Int -> Int -> Int
_ ^ 0 = 1
x ^ n | n > 0 = f x (n - 1) x
  where
    f _ 0 z = z
    f y m z = g y m
      where
        g u k | even k = g (u * u) (k `quot` 2)
              | otherwise = f u (k - 1) (u * z)
_ ^ _ = error "Prelude.^: negative exponent"

enumFrom :: Int -> [Int]
enumFrom n = enumFromTo n maxBound

enumFromThen :: Int -> Int -> [Int]
enumFromThen m n = enumFromThenTo m n (if n >= m then maxBound else minBound)

enumFromTo :: Int -> Int -> [Int]
enumFromTo m n
  | m > n = []
  | otherwise = up m
  where
    up k | k == n = [k]
         | otherwise = k : up (k + 1)

-- A step may be more than an Int can hold: it wraps, and the limit less the step is in range again.
enumFromThenTo :: Int -> Int -> Int -> [Int]
enumFromThenTo m n limit
  | n >= m = if limit < n then (if limit < m then [] else [m]) else m : up n
  | otherwise = if limit > n then (if limit > m then [] else [m]) else m : down n
  where
    step = n - m
    up k | k > limit - step = [k]
         | otherwise = k : up (k + step)
    down k | k < limit - step = [k]
           | otherwise = k : down (k + step)

-- Functions.

id :: a -> a
id x = x

const :: a -> b -> a
const x _ = x

(.) :: (b -> c) -> (a -> b) -> a -> c
f . g = \x -> f (g x)

flip :: (a -> b -> c) -> b -> a -> c
flip f x y = f y x

($), ($!) :: (a -> b) -> a -> b
f $ x = f x
f $! x = x `seq` f x

seq :: a -> b -> b
seq = seq

until :: (a -> Bool) -> (a -> a) -> a -> a
until p f x
  | p x = x
  | otherwise = until p f (f x)

asTypeOf :: a -> a -> a
asTypeOf = const

error :: String -> a
error = error

undefined :: a
undefined = error "Prelude.undefined"

-- Truth values, choices and pairs.

(&&), (||) :: Bool -> Bool -> Bool
True && x = x
False && _ = False
True || _ = True
False || x = x

not :: Bool -> Bool
not True = False
not False = True

otherwise :: Bool
otherwise = True

maybe :: b -> (a -> b) -> Maybe a -> b
maybe n _ Nothing = n
maybe _ f (Just x) = f x

either :: (a -> c) -> (b -> c) -> Either a b -> c
either f _ (Left x) = f x
either _ g (Right y) = g y

fst :: (a, b) -> a
fst (x, _) = x

snd :: (a, b) -> b
snd (_, y) = y

curry :: ((a, b) -> c) -> a -> b -> c
curry f x y = f (x, y)

uncurry :: (a -> b -> c) -> (a, b) -> c
uncurry f p = f (fst p) (snd p)

-- Lists.

map :: (a -> b) -> [a] -> [b]
map _ [] = []
map f (x:xs) = f x : map f xs

(++) :: [a] -> [a] -> [a]
[] ++ ys = ys
(x:xs) ++ ys = x : (xs ++ ys)

filter :: (a -> Bool) -> [a] -> [a]
filter _ [] = []
filter p (x:xs)
  | p x = x : filter p xs
  | otherwise = filter p xs

concat :: [[a]] -> [a]
concat xss = foldr (++) [] xss

concatMap :: (a -> [b]) -> [a] -> [b]
concatMap f = concat . map f

head :: [a] -> a
head (x:_) = x
head [] = error "Prelude.head: empty list"

last :: [a] -> a
last [x] = x
last (_:xs) = last xs
last [] = error "Prelude.last: empty list"

tail :: [a] -> [a]
tail (_:xs) = xs
tail [] = error "Prelude.tail: empty list"

init :: [a] -> [a]
init [_] = []
init (x:xs) = x : init xs
init [] = error "Prelude.init: empty list"

null :: [a] -> Bool
null [] = True
null (_:_) = False

length :: [a] -> Int
length [] = 0
length (_:xs) = 1 + length xs

(!!) :: [a] -> Int -> a
_ !! n | n < 0 = error "Prelude.!!: negative index"
[] !! _ = error "Prelude.!!: index too large"
(x:_) !! 0 = x
(_:xs) !! n = xs !! (n - 1)

foldl :: (a -> b -> a) -> a -> [b] -> a
foldl _ z [] = z
foldl f z (x:xs) = foldl f (f z x) xs

foldl1 :: (a -> a -> a) -> [a] -> a
foldl1 f (x:xs) = foldl f x xs
foldl1 _ [] = error "Prelude.foldl1: empty list"

scanl :: (a -> b -> a) -> a -> [b] -> [a]
scanl f q xs = q : (case xs of
                      [] -> []
                      y:ys -> scanl f (f q y) ys)

scanl1 :: (a -> a -> a) -> [a] -> [a]
scanl1 f (x:xs) = scanl f x xs
scanl1 _ [] = []

foldr :: (a -> b -> b) -> b -> [a] -> b
foldr _ z [] = z
foldr f z (x:xs) = f x (foldr f z xs)

foldr1 :: (a -> a -> a) -> [a] -> a
foldr1 _ [x] = x
foldr1 f (x:xs) = f x (foldr1 f xs)
foldr1 _ [] = error "Prelude.foldr1: empty list"

scanr :: (a -> b -> b) -> b -> [a] -> [b]
scanr _ z [] = [z]
scanr f z (x:xs) = f x q : qs
  where qs@(q:_) = scanr f z xs

scanr1 :: (a -> a -> a) -> [a] -> [a]
scanr1 _ [] = []
scanr1 _ [x] = [x]
scanr1 f (x:xs) = f x q : qs
  where qs@(q:_) = scanr1 f xs

iterate :: (a -> a) -> a -> [a]
iterate f x = x : iterate f (f x)

repeat :: a -> [a]
repeat x = xs
  where xs = x : xs

replicate :: Int -> a -> [a]
replicate n x = take n (repeat x)

cycle :: [a] -> [a]
cycle [] = error "Prelude.cycle: empty list"
cycle xs = xs'
  where xs' = xs ++ xs'

take :: Int -> [a] -> [a]
take n _ | n <= 0 = []
take _ [] = []
take n (x:xs) = x : take (n - 1) xs

drop :: Int -> [a] -> [a]
drop n xs | n <= 0 = xs
drop _ [] = []
drop n (_:xs) = drop (n - 1) xs

splitAt :: Int -> [a] -> ([a], [a])
splitAt n xs = (take n xs, drop n xs)

takeWhile :: (a -> Bool) -> [a] -> [a]
takeWhile _ [] = []
takeWhile p (x:xs)
  | p x = x : takeWhile p xs
  | otherwise = []

dropWhile :: (a -> Bool) -> [a] -> [a]
dropWhile _ [] = []
dropWhile p xs@(x:xs')
  | p x = dropWhile p xs'
  | otherwise = xs

span, break :: (a -> Bool) -> [a] -> ([a], [a])
span _ [] = ([], [])
span p xs@(x:xs')
  | p x = (x : ys, zs)
  | otherwise = ([], xs)
  where (ys, zs) = span p xs'
break p = span (not . p)

lines :: String -> [String]
lines "" = []
lines s =
  let (l, s') = break isEnd s
  in l : case s' of
           [] -> []
           _:s'' -> lines s''
  where
    isEnd '\n' = True
    isEnd _ = False

words :: String -> [String]
words s = case dropWhile isBlank s of
    "" -> []
    s' -> w : words s''
      where (w, s'') = break isBlank s'
  where
    isBlank ' ' = True
    isBlank '\t' = True
    isBlank '\n' = True
    isBlank '\r' = True
    isBlank '\f' = True
    isBlank '\v' = True
    isBlank _ = False

unlines :: [String] -> String
unlines = concatMap (++ "\n")

unwords :: [String] -> String
unwords [] = ""
unwords ws = foldr1 (\w s -> w ++ ' ' : s) ws

reverse :: [a] -> [a]
reverse = foldl (flip (:)) []

and, or :: [Bool] -> Bool
and = foldr (&&) True
or = foldr (||) False

any, all :: (a -> Bool) -> [a] -> Bool
any p = or . map p
all p = and . map p

elem, notElem :: Int -> [Int] -> Bool
elem x = any (== x)
notElem x = all (/= x)

lookup :: Int -> [(Int, a)] -> Maybe a
lookup _ [] = Nothing
lookup key ((x, y):xys)
  | key == x = Just y
  | otherwise = lookup key xys

sum, product :: [Int] -> Int
sum = foldl (+) 0
product = foldl (*) 1

maximum, minimum :: [Int] -> Int
maximum [] = error "Prelude.maximum: empty list"
maximum xs = foldl1 max xs
minimum [] = error "Prelude.minimum: empty list"
minimum xs = foldl1 min xs

zip :: [a] -> [b] -> [(a, b)]
zip = zipWith (,)

zip3 :: [a] -> [b] -> [c] -> [(a, b, c)]
zip3 = zipWith3 (,,)

zipWith :: (a -> b -> c) -> [a] -> [b] -> [c]
zipWith z (a:as) (b:bs) = z a b : zipWith z as bs
zipWith _ _ _ = []

zipWith3 :: (a -> b -> c -> d) -> [a] -> [b] -> [c] -> [d]
zipWith3 z (a:as) (b:bs) (c:cs) = z a b c : zipWith3 z as bs cs
zipWith3 _ _ _ _ = []

unzip :: [(a, b)] -> ([a], [b])
unzip = foldr (\(a, b) ~(as, bs) -> (a : as, b : bs)) ([], [])

unzip3 :: [(a, b, c)] -> ([a], [b], [c])
unzip3 = foldr (\(a, b, c) ~(as, bs, cs) -> (a : as, b : bs, c : cs)) ([], [], [])
"#;
